//! Lines and fields of a text: read, and written.
//!
//! A text is a list of lines, each ended by LF. The fields of a line are its longest runs of bytes other
//! than space. A field is a number, an id, a key, a value, a bound of a range or a word. docs/FORMAT.md
//! shows them all.
#![tactic(auto)]

mod cuts;
mod fault;
mod fields;
mod hexadecimal;
mod numbers;
mod text;

pub use cuts::next_line;
pub use fault::{LineError, TextKind};
pub use fields::Fields;
pub use numbers::{id_of, is_word, number_of};
pub use text::{Text, put_hex, put_named, put_number, put_numbers, put_value, put_word};
