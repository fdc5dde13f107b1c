//! A whole text, read.

ghost use Rattle.std.specs.Prelude.{◌≡◌, Ok, IfOk};
ghost use Rattle.rs_field.specs.Lines.{parts_of, fields_of};
ghost use Rattle.rs_text.specs.Steps.{Counts, start};
ghost use Rattle.rs_text.specs.Grammar.{Belongs, HasFewLogs};
ghost use Rattle.rs_text.specs.FirstFault.{NoneBelongs, NoneBefore};
ghost use Rattle.rs_text.specs.Reading.{GivesText, FaultAt, version_of, header_of, input_of, last_line, read_from, read_text};

use crate::error::TextError;
use crate::progress::{Progress, start};
use crate::steps::{close_log, close_store, step};
use rs_entry::Input;
use rs_field::{Fields, LineError, TextKind, is_word, next_line};
use rs_key::NoMemory;
use std::alloc::Global;

/// Reads the input that a text spells, or its first fault. Where memory runs out it answers so, and nothing is told.
///
/// A text belongs to an input where the input is well formed and the text is its canonical text, up to the
/// spaces between fields and the case of hexadecimal digits. What the clauses say:
///
/// - `exact`: the answer is that of reading line by line, with the line and the kind of the first fault;
/// - `found`: an input that is answered belongs to the text, so it is well formed;
/// - `only`: a text that belongs to an input is read as that input, so no such text has a fault, and no
///   text belongs to two inputs;
/// - `none`: where a fault is answered, no text that begins with the same lines, up to and with the line of
///   the fault, belongs to an input;
/// - `before`: the lines before that line, as a whole text, have no fault, but that `end` may be
///   missing;
/// - `counted`: no store of an input that is answered has more logs than the text has bytes.
///
/// `none` and `before` speak of lines that are ended by LF, and say nothing of the kind of the fault.
pub fn read_logs(alloc: Global, text: &[u8]) -> Result<Input, TextError>
    ensures exact { GivesText result (read_text text.now) }
    ensures found { IfOk result (λ x. Belongs text.now x) }
    ensures only { (x : Input) → Belongs text.now x → GivesText result (Ok x) }
    ensures none { NoneBelongs text.now result }
    ensures before { NoneBefore text.now result }
    ensures counted { IfOk result (HasFewLogs text.now) }
{
    whole_text(alloc, text)
}

/// Reads the input that a text spells, or its first fault.
#[tactic(auto, unfolding(crate::specs::Reading::read_text))]
fn whole_text(alloc: Global, text: &[u8]) -> Result<Input, TextError>
    ensures { GivesText result (read_text text.now) }
{
    let Some((first, rest)) = next_line(text) else {
        return Err(TextError::Fault {
            line: 1,
            kind: TextKind::BadHeader,
        });
    };
    let Some(version) = header_of(first) else {
        return Err(TextError::Fault {
            line: 1,
            kind: TextKind::BadHeader,
        });
    };
    lines(alloc, version, rest)
}

/// Returns the version that a word names.
fn version_of(word: &[u8]) -> Option<u64>
    ensures { result ≡ version_of word.now }
{
    if is_word(word, "1") {
        return Some(1);
    }
    if is_word(word, "2") {
        return Some(2);
    }
    None
}

/// Returns the version that line 1 names.
fn header_of(line: &[u8]) -> Option<u64>
    ensures { result ≡ header_of (fields_of line.now) }
{
    let mut fields = Fields::new(line);
    let Some(first) = fields.next_field() else {
        return None;
    };
    let Some(second) = fields.next_field() else {
        return None;
    };
    if fields.next_field().is_some() {
        return None;
    }
    if !is_word(first, "raftreplay") {
        return None;
    }
    version_of(second)
}

/// Returns the fault of a line, at its number.
fn at_line(line: u64, error: LineError) -> TextError
    ensures { FaultAt line error result }
{
    match error {
        LineError::Bad(kind) => TextError::Fault { line, kind },
        LineError::NoMemory => TextError::NoMemory,
    }
}

/// Returns the input of a progress.
fn whole(alloc: Global, mut p: Progress) -> Result<Input, NoMemory>
    requires { Counts p }
    ensures { IfOk result (λ x. x ≡ input_of p) }
{
    let version = p.version;
    close_log(alloc, &mut p)?;
    close_store(alloc, &mut p)?;
    let Progress { stores, .. } = p;
    Ok(Input { version, stores })
}

/// Reads what follows the last LF, as line `n`.
#[tactic(auto, unfolding(crate::specs::Reading::last_line))]
fn finish(alloc: Global, line: u64, p: Progress, last: &[u8]) -> Result<Input, TextError>
    requires { Counts p }
    ensures { GivesText result (last_line line p last.now) }
{
    if !last.is_empty() {
        return Err(TextError::Fault {
            line,
            kind: TextKind::BadLine,
        });
    }
    if !p.ended {
        return Err(TextError::Fault {
            line,
            kind: TextKind::NoEnd,
        });
    }
    match whole(alloc, p) {
        Ok(input) => Ok(input),
        Err(NoMemory) => Err(TextError::NoMemory),
    }
}

/// Reads the lines after line 1.
fn lines(alloc: Global, version: u64, text: &[u8]) -> Result<Input, TextError>
    ensures { GivesText result (read_from 2 (start version) (parts_of text.now)) }
{
    let mut p = start(alloc, version);
    let mut rest = text;
    let mut line: u64 = 2;
    while let Some((this, after)) = next_line(rest) {
        match step(alloc, &mut p, this) {
            Ok(()) => {}
            Err(error) => return Err(at_line(line, error)),
        }
        rest = after;
        line += 1;
    }
    finish(alloc, line, p, rest)
}
