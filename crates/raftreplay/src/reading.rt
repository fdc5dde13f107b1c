//! Logs from a source: those of a text, lawful or as they are, and those of a binary file.

ghost use Rattle.std.specs.Prelude.{◌≡◌, ◌≤◌, ℕ, List, [], Ok, Err, Some, length, IfOk, IfErr, OnOk, IfSome};
ghost use Rattle.rs_entry.specs.WellFormed.{WellFormed};
ghost use Rattle.rs_bin.specs.Grammar.{AreCounted};
ghost use Rattle.rs_check.specs.Laws.{check};
ghost use Rattle.raftreplay.specs.Expected.{Reading, text_reading, reading_of, binary_reading, checked, offset_text, limit};
ghost use Rattle.raftreplay.specs.Kept.{Read, IsTold, RefusesLong};

use crate::answer::Answer;
use crate::status::Status;
use rs_base::{ReadError, Source, read_all};
use rs_bin::{BinError, read_binary};
use rs_check::{CheckError, Plan, check};
use rs_entry::Input;
use rs_field::{Text, put_word};
use rs_key::NoMemory;
use rs_text::{TextError, read_logs, write_fault, write_syntax};
use std::alloc::Global;

/// The greatest length of an input, in bytes.
const LIMIT: usize = 67_108_864;

/// Reads a source to its end. Gives its bytes, or the answer that refuses them, whatever they were to be.
#[tactic(auto, using(crate::proofs::Readings::long_refused))]
fn all_bytes<S: Source>(alloc: Global, source: &mut S) -> Result<Vec<u8>, Answer>
    ensures all { IfOk result (λ v. IfSome (S.left source.old) (λ bytes. v.items ≡ bytes)) }
    ensures within_limit { IfOk result (λ v. length v.items ≤ limit) }
    ensures none_left { OnOk result (IfSome (S.left source.old) (λ _. S.left source.new ≡ Some [])) }
    ensures refused { IfErr result (λ answer. (reading : List ℕ → Reading) → RefusesLong reading
        → Read S.left S.faults reading (Err answer) source.old source.new) }
    ensures kept_faults { S.faults source.old ≤ S.faults source.new }
{
    match read_all(alloc, source, LIMIT) {
        Ok(bytes) => Ok(bytes),
        Err(ReadError::ReadFault) => Err(Answer::silent(alloc, Status::ReadFault)),
        Err(ReadError::TooLong) => Err(Answer::silent(alloc, Status::TooLong)),
        Err(ReadError::NoMemory) => Err(Answer::silent(alloc, Status::NoMemory)),
    }
}

/// Reads a source to its end, and checks the logs of the text that is there. Gives these, or the answer that
/// refuses them.
pub fn lawful_logs<S: Source>(alloc: Global, source: &mut S) -> Result<Plan, Answer>
    ensures { Read S.left S.faults reading_of result source.old source.new }
{
    let bytes = match all_bytes(alloc, source) {
        Ok(bytes) => bytes,
        Err(refusal) => return Err(refusal),
    };
    match lawful_logs_of_text(alloc, &bytes) {
        Ok(reading) => reading,
        Err(NoMemory) => Err(Answer::silent(alloc, Status::NoMemory)),
    }
}

/// Reads a source to its end. Gives the logs of the text that is there, which it doesn't check, or the answer that
/// refuses them.
pub fn text_logs<S: Source>(alloc: Global, source: &mut S) -> Result<Input, Answer>
    ensures read { Read S.left S.faults text_reading result source.old source.new }
    ensures formed { IfOk result WellFormed }
    ensures counted { IfOk result AreCounted }
{
    let bytes = match all_bytes(alloc, source) {
        Ok(bytes) => bytes,
        Err(refusal) => return Err(refusal),
    };
    match logs_of_text(alloc, &bytes) {
        Ok(reading) => reading,
        Err(NoMemory) => Err(Answer::silent(alloc, Status::NoMemory)),
    }
}

/// Reads a source to its end. Gives the logs of the binary file that is there, which it doesn't check, or the answer
/// that refuses them.
pub fn binary_logs<S: Source>(alloc: Global, source: &mut S) -> Result<Input, Answer>
    ensures { Read S.left S.faults binary_reading result source.old source.new }
{
    let bytes = match all_bytes(alloc, source) {
        Ok(bytes) => bytes,
        Err(refusal) => return Err(refusal),
    };
    match logs_of_binary(alloc, &bytes) {
        Ok(reading) => reading,
        Err(NoMemory) => Err(Answer::silent(alloc, Status::NoMemory)),
    }
}

/// Returns the logs of a text, or the answer that refuses them.
#[tactic(auto, unfolding(crate::specs::Expected::text_reading), using(crate::proofs::CountedLogs::few_counted))]
fn logs_of_text(alloc: Global, bytes: &[u8]) -> Result<Result<Input, Answer>, NoMemory>
    requires { length bytes.now ≤ limit }
    ensures reading { IfOk result (λ reading. text_reading bytes.now ≡ reading) }
    ensures told { IfOk result IsTold }
    ensures formed { IfOk result (λ reading. IfOk reading WellFormed) }
    ensures counted { IfOk result (λ reading. IfOk reading AreCounted) }
{
    match read_logs(alloc, bytes) {
        Ok(input) => Ok(Ok(input)),
        Err(TextError::Fault { line, kind }) => {
            let text = write_syntax(alloc, line, kind)?;
            Ok(Err(Answer::new(Status::Syntax, text)))
        }
        Err(TextError::NoMemory) => Err(NoMemory),
    }
}

/// Returns the lawful logs of a text, or the answer that refuses them.
#[tactic(auto, unfolding(crate::specs::Expected::reading_of))]
fn lawful_logs_of_text(alloc: Global, bytes: &[u8]) -> Result<Result<Plan, Answer>, NoMemory>
    requires { length bytes.now ≤ limit }
    ensures reading { IfOk result (λ reading. reading_of bytes.now ≡ reading) }
    ensures told { IfOk result IsTold }
{
    match logs_of_text(alloc, bytes) {
        Ok(Ok(input)) => checked_logs(alloc, input),
        Ok(Err(refusal)) => Ok(Err(refusal)),
        Err(NoMemory) => Err(NoMemory),
    }
}

/// Returns the logs, if they are lawful, or the answer that refuses them.
fn checked_logs(alloc: Global, input: Input) -> Result<Result<Plan, Answer>, NoMemory>
    requires { WellFormed input }
    ensures reading { IfOk result (λ reading. checked input (check input) ≡ reading) }
    ensures told { IfOk result IsTold }
{
    match check(input) {
        Ok(plan) => Ok(Ok(plan)),
        Err(CheckError::Law(fault)) => {
            let text = write_fault(alloc, &fault)?;
            Ok(Err(Answer::new(Status::Unlawful, text)))
        }
        Err(CheckError::NoMemory) => Err(NoMemory),
    }
}

/// Returns the logs of a binary file, or the answer that refuses them.
#[tactic(auto, unfolding(crate::specs::Expected::binary_reading))]
fn logs_of_binary(alloc: Global, bytes: &[u8]) -> Result<Result<Input, Answer>, NoMemory>
    requires { length bytes.now ≤ limit }
    ensures reading { IfOk result (λ reading. binary_reading bytes.now ≡ reading) }
    ensures told { IfOk result IsTold }
{
    match read_binary(alloc, bytes) {
        Ok(input) => Ok(Ok(input)),
        Err(BinError::Bad(offset)) => {
            let line = write_offset(alloc, offset)?;
            Ok(Err(Answer::new(Status::Syntax, line)))
        }
        Err(BinError::NoMemory) => Err(NoMemory),
    }
}

/// Returns `binary OFFSET`.
fn write_offset(alloc: Global, offset: u64) -> Result<Vec<u8>, NoMemory>
    ensures { IfOk result (λ text. text.items ≡ offset_text offset) }
{
    let mut text = Vec::new(alloc);
    put_word(&mut text, "binary")?;
    offset.put(&mut text)?;
    put_word(&mut text, "\n")?;
    Ok(text)
}
