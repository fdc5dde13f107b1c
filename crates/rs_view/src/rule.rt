//! The rule of what is published: it contains each cut that a reader saw or was told of.

ghost use Rattle.std.specs.Prelude.{◌≡◌, MatchResult, OnOk};
ghost use Rattle.rs_table.specs.Cuts.{IsCut};
ghost use Rattle.rs_table.specs.Moves.{raised};
ghost use Rattle.rs_view.specs.Cuts.{cut_of, numbers_of, stepped};

use crate::step::Step;
use crate::store_cut::StoreCut;
use atomic_table::{Join, Split};
use crossbeam_utils::rule::{Outcome, Protocol};
use left_right::Absorb;
use left_right::reader::Reader;
use left_right::writer::Writer;
use rs_key::NoMemory;
use rs_table::CutTable;
use std::alloc::AllocError;

/// Takes the reshaping, which makes a greater cut, into the table. After NoMemory nothing changed.
pub(crate) fn take_next(table: &mut CutTable<'_>, step: Step) -> Result<(), NoMemory>
    requires grows { IsCut (cut_of table.old).input (cut_of table.old).place (raised (numbers_of (cut_of table.old)) step.address) }
    ensures ok { OnOk result (numbers_of (cut_of table.new) ≡ raised (numbers_of (cut_of table.old)) step.address) }
    ensures cut { MatchResult result (λ _. cut_of table.new ≡ stepped (cut_of table.old) step) (λ _. cut_of table.new ≡ cut_of table.old) }
{
    match table.step(step.address) {
        Ok(()) => Ok(()),
        Err(refused) => Err(refused),
    }
}

/// Takes the reshaping into the table, if it makes a greater cut.
fn take(table: &mut CutTable<'_>, step: Step) -> Result<(), AllocError>
    ensures { MatchResult result (λ _. cut_of table.new ≡ stepped (cut_of table.old) step) (λ _. cut_of table.new ≡ cut_of table.old) }
{
    if !table.is_next(step.address, step.nth) {
        return Err(AllocError);
    }
    match take_next(table, step) {
        Ok(()) => Ok(()),
        Err(_) => Err(AllocError),
    }
}

impl<'p> Absorb<Step> for CutTable<'p> {
    ghost use Rattle.rs_view.specs.Cuts.{cut_of, stepped};

    type State = StoreCut;

    ghost state = { cut_of };

    ghost applied = { stepped };

    fn absorb_first(&mut self, step: &Step, _other: &CutTable<'p>) -> Result<(), AllocError> {
        take(self, *step)
    }
}

/// The greatest cut that a reader saw or was told of. No value of it is made.
pub type Known = Option<StoreCut>;

/// What is published contains what each reader knows.
pub struct Rising;

impl<'p> Protocol<CutTable<'p>, Known> for Rising {
    ghost use Rattle.std.specs.Prelude.{None};
    ghost use Rattle.rs_view.specs.Cuts.{Keeps, cut_of};

    ghost holds = { λ t. Keeps (cut_of t) };

    ghost first = { None };
}

/// What is published is known from now on, and contains all that was known.
pub(crate) struct Sees;

impl<'p> Outcome<CutTable<'p>, Known> for Sees {
    ghost use Rattle.std.specs.Prelude.{◌≡◌, Some};
    ghost use Rattle.rs_view.specs.Cuts.{Contains, cut_of};

    ghost then = { λ v x y w. (w ≡ Some (cut_of y)) × Contains (cut_of y) v };
}

/// A new reader takes in what the writer knows.
pub(crate) struct Notes;

impl Split<Known> for Notes {
    ghost left = { λ v. v };

    ghost right = { λ v. v };
}

impl Join<Known> for Notes {
    ghost use Rattle.std.specs.Prelude.{None};

    ghost both = { λ v w. w };

    ghost spent = { None };
}

pub type TableReader<'p> = Reader<CutTable<'p>, Known, Rising>;

pub type TableWriter<'p> = Writer<CutTable<'p>, Step, Known, Rising>;
