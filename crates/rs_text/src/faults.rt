//! The texts of faults.

ghost use Rattle.std.specs.Prelude.{◌≡◌, ◌++◌, ◌∷◌, [], IfOk, codes, length};
ghost use Rattle.rs_field.specs.Forms.{Appends, more_text, fields_text, line_text, lines_text};
ghost use Rattle.rs_text.specs.Outcomes.{mode_forms};
ghost use Rattle.rs_text.specs.FaultTexts.{kind_form, syntax_text, unlawful, statement_forms, range_forms, fault_lines, fault_text};

use crate::logs::{put_carried, put_entry, put_region};
use crate::outcomes::put_mode;
use crate::writing::Line;
use rs_entry::{LawFault, Mode, Statement};
use rs_field::{Text, TextKind, put_numbers, put_word};
use rs_key::{NoMemory, Range};
use std::alloc::Global;

/// Appends the kind of a fault behind other fields.
fn put_kind(out: &mut Vec<u8>, kind: TextKind) -> Result<(), NoMemory>
    ensures { Appends result out.old out.new (more_text (kind_form kind ∷ [])) }
{
    match kind {
        TextKind::BadHeader => put_word(out, " BadHeader"),
        TextKind::BadLine => put_word(out, " BadLine"),
        TextKind::BadNumber => put_word(out, " BadNumber"),
        TextKind::BadKey => put_word(out, " BadKey"),
        TextKind::BadIndex => put_word(out, " BadIndex"),
        TextKind::BadCarry => put_word(out, " BadCarry"),
        TextKind::Limit => put_word(out, " Limit"),
        TextKind::NoEnd => put_word(out, " NoEnd"),
    }
}

/// Returns the text of the first fault of a text.
#[tactic(auto, unfolding(crate::specs::FaultTexts::syntax_text))]
pub fn write_syntax(alloc: Global, line: u64, kind: TextKind) -> Result<Vec<u8>, NoMemory>
    ensures { IfOk result (λ v. v.items ≡ syntax_text line kind) }
{
    let mut out = Vec::new(alloc);
    put_word(&mut out, "syntax")?;
    line.put(&mut out)?;
    put_kind(&mut out, kind)?;
    put_word(&mut out, "\n")?;
    Ok(out)
}

/// Appends the fields of a fault's first line: its name and numbers.
fn put_unlawful(out: &mut Vec<u8>, name: &str, numbers: &[u64]) -> Result<(), NoMemory>
    ensures { Appends result out.old out.new (fields_text (unlawful name.now numbers.now)) }
{
    put_word(out, "unlawful ")?;
    put_word(out, name)?;
    put_numbers(out, numbers)
}

/// Appends the one line of a fault that has no other.
fn put_alone(out: &mut Vec<u8>, name: &str, numbers: &[u64]) -> Result<(), NoMemory>
    ensures { Appends result out.old out.new (line_text (unlawful name.now numbers.now)) }
{
    put_unlawful(out, name, numbers)?;
    put_word(out, "\n")
}

impl Line for Statement {
    ghost line = { statement_forms };

    fn put_line(&self, out: &mut Vec<u8>) -> Result<(), NoMemory> {
        match self {
            Statement::Boot(boot) => put_region(out, boot)?,
            Statement::Entry(entry) => put_entry(out, entry)?,
            Statement::Carried(carried) => put_carried(out, carried)?,
        }
        put_word(out, "\n")
    }
}

/// A region with its range, as it is shown without its peers.
#[derive(Drop)]
struct RangeLine<'a> {
    region: u64,
    range: &'a Range,
}

impl<'a> Line for RangeLine<'a> {
    ghost line = { λ l. range_forms l.region l.range.now };

    fn put_line(&self, out: &mut Vec<u8>) -> Result<(), NoMemory> {
        put_word(out, "region")?;
        self.region.put(out)?;
        self.range.put(out)?;
        put_word(out, "\n")
    }
}

/// Appends the line of a bad rollback, which ends with the region's mode.
fn put_bad_rollback(out: &mut Vec<u8>, numbers: &[u64], mode: &Mode) -> Result<(), NoMemory>
    ensures { Appends result out.old out.new (line_text (unlawful (codes "badrollback") numbers.now ++ mode_forms mode.now)) }
{
    put_unlawful(out, "badrollback", numbers)?;
    put_mode(out, mode)?;
    put_word(out, "\n")
}

/// Appends the lines of a fault that shows two statements.
fn put_pair<T: Line>(
    out: &mut Vec<u8>,
    name: &str,
    numbers: &[u64],
    one: &T,
    other: &T,
) -> Result<(), NoMemory>
    ensures { Appends result out.old out.new (lines_text (unlawful name.now numbers.now ∷ T.line one.now ∷ T.line other.now ∷ [])) }
{
    put_alone(out, name, numbers)?;
    one.put_line(out)?;
    other.put_line(out)
}

/// Appends the line of a fault that has one.
fn put_one_line(out: &mut Vec<u8>, fault: &LawFault) -> Result<(), NoMemory>
    requires { length (fault_lines fault.now) ≡ 1 }
    ensures { Appends result out.old out.new (lines_text (fault_lines fault.now)) }
{
    match fault {
        LawFault::Reused {
            store,
            region,
            index,
            id,
        } => { put_alone(out, "reused", &[*store, *region, *index, *id]) }
        LawFault::NotPrepared {
            store,
            region,
            index,
            source,
            commit,
        } => {
            let numbers = [*store, *region, *index, *source, *commit];
            put_alone(out, "notprepared", &numbers)
        }
        LawFault::BadRollback {
            store,
            region,
            index,
            commit,
            mode,
        } => { put_bad_rollback(out, &[*store, *region, *index, *commit], mode) }
        LawFault::Waits {
            store,
            region,
            index,
            source,
            commit,
        } => { put_alone(out, "waits", &[*store, *region, *index, *source, *commit]) }
        LawFault::Unborn { store, region } => put_alone(out, "unborn", &[*store, *region]),
        _ => unreachable!(),
    }
}

/// Appends the lines of a fault.
fn put_fault(out: &mut Vec<u8>, fault: &LawFault) -> Result<(), NoMemory>
    ensures { Appends result out.old out.new (lines_text (fault_lines fault.now)) }
{
    match fault {
        LawFault::Differ {
            first,
            second,
            region,
            index,
            was,
            is,
        } => put_pair(out, "differ", &[*first, *second, *region, *index], was, is),
        LawFault::Overlap { one, other } => {
            put_pair(out, "overlap", &[one.region, other.region], one, other)
        }
        LawFault::NotNext {
            store,
            region,
            index,
            source,
            commit,
            target_range,
            source_range,
        } => {
            let numbers = [*store, *region, *index, *source, *commit];
            let target = RangeLine {
                region: *region,
                range: target_range,
            };
            let source = RangeLine {
                region: *source,
                range: source_range,
            };
            put_pair(out, "notnext", &numbers, &target, &source)
        }
        _ => put_one_line(out, fault),
    }
}

/// Returns the text of a fault of the laws.
#[tactic(auto, unfolding(crate::specs::FaultTexts::fault_text))]
pub fn write_fault(alloc: Global, fault: &LawFault) -> Result<Vec<u8>, NoMemory>
    ensures { IfOk result (λ v. v.items ≡ fault_text fault.now) }
{
    let mut out = Vec::new(alloc);
    put_fault(&mut out, fault)?;
    Ok(out)
}
