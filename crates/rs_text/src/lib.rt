//! The log text, read and written, and the texts of what came of it.
//!
//! A text belongs to an input where the input is well formed and the text is its canonical one, up to spaces
//! and the case of hexadecimal digits. The reader gives the input that a text belongs to, or the first fault;
//! the writers give the canonical text of an input, the text of an outcome, of the history of one key, and of
//! each fault. docs/FORMAT.md shows them all.
#![tactic(auto)]

mod bodies;
mod error;
mod faults;
mod logs;
mod outcomes;
mod progress;
mod reading;
mod steps;
mod writing;

pub use error::TextError;
pub use faults::{write_fault, write_syntax};
pub use logs::write_logs;
pub use outcomes::{write_history, write_outcome};
pub use reading::read_logs;
pub use rs_field::TextKind;
