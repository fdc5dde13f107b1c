ghost use Rattle.std.specs.Prelude.{◌≡◌, ◌≤◌, ◌<◌, ◌^◌, ◌↔◌, [], true, false, Some, None, length, IfOk, IfSome};
ghost use Rattle.rs_base.specs.Counts.{Rose};
ghost use Rattle.rs_text.specs.Logs.{text_of};
ghost use Rattle.rs_text.specs.Outcomes.{outcome_text, history_text};
ghost use Rattle.rs_history.specs.Outcomes.{outcome_of};
ghost use Rattle.rs_gen.specs.Inputs.{made_of};
ghost use Rattle.raftreplay.specs.Statuses.{IsWritten, IsSilent, IsUnread};
ghost use Rattle.raftreplay.specs.Expected.{expected, answer_of, counts_text, is_read, bytes_for, done};
ghost use Rattle.raftreplay.specs.Kept.{KeepsTo, IsExpected, Wrote, Obeyed};
ghost use Rattle.raftreplay.specs.Words.{command_of, bytes_of};

use crate::answer::finish;
use crate::check_text::write_lawful;
use crate::reading::{binary_logs, lawful_logs, text_logs};
use crate::selftest_text::write_counts;
use crate::status::Status;
use crate::words::{Command, command_of};
use rs_base::{Gate, Sink, Source};
use rs_bin::write_binary;
use rs_check::{CheckError, Plan, check};
use rs_engine::{Options, run};
use rs_fold::fold;
use rs_gen::make;
use rs_key::{Key, NoMemory};
use rs_text::{write_history, write_logs, write_outcome};
use std::alloc::Global;
use std::sync::Wait;
use std::thread::Threads;

/// Writes whether the logs that the source gives are lawful, and how much they are.
#[tactic(auto, using(crate::proofs::Obeying::refused_obeyed))]
pub fn check_command<S: Source, K: Sink>(alloc: Global, source: &mut S, sink: &mut K) -> Status
    ensures { Obeyed S.left S.faults K.taken K.faults Command.Check result source.old source.new sink.old sink.new }
{
    match lawful_logs(alloc, source) {
        Ok(plan) => finish(alloc, write_lawful(alloc, &plan), sink),
        Err(refusal) => refusal.write(sink),
    }
}

/// Writes what comes of the logs that the source gives.
#[tactic(auto, using(crate::proofs::Obeying::refused_obeyed))]
pub fn fold_command<S: Source, K: Sink>(alloc: Global, source: &mut S, sink: &mut K) -> Status
    ensures { Obeyed S.left S.faults K.taken K.faults Command.Fold result source.old source.new sink.old sink.new }
{
    match lawful_logs(alloc, source) {
        Ok(plan) => finish(alloc, folded(alloc, &plan), sink),
        Err(refusal) => refusal.write(sink),
    }
}

/// Returns the text of the fold.
fn folded(alloc: Global, plan: &Plan) -> Result<Vec<u8>, NoMemory>
    ensures { IfOk result (λ text. text.items ≡ outcome_text (outcome_of plan.now)) }
{
    let outcome = fold(alloc, plan)?;
    write_outcome(alloc, &outcome)
}

/// Writes, for each store, the writes of the key in their order.
#[tactic(auto, using(crate::proofs::Obeying::refused_obeyed))]
pub fn history_command<S: Source, K: Sink>(
    alloc: Global,
    key: &Key,
    source: &mut S,
    sink: &mut K,
) -> Status
    ensures { Obeyed S.left S.faults K.taken K.faults (Command.History key.now) result source.old source.new sink.old sink.new }
{
    match lawful_logs(alloc, source) {
        Ok(plan) => finish(alloc, history_of(alloc, &plan, key), sink),
        Err(refusal) => refusal.write(sink),
    }
}

/// Returns the text of the key's history.
fn history_of(alloc: Global, plan: &Plan, key: &Key) -> Result<Vec<u8>, NoMemory>
    ensures { IfOk result (λ text. text.items ≡ history_text (outcome_of plan.now) key.now) }
{
    let outcome = fold(alloc, plan)?;
    write_history(alloc, &outcome, key)
}

/// Writes what pollers make of the logs that the source gives: the text of the fold. It waits for its workers.
#[tactic(auto, using(crate::proofs::Obeying::refused_obeyed))]
pub fn run_command<R: Threads + Wait + Sync, S: Source, K: Sink, G: Gate>(
    rt: &R,
    alloc: Global,
    options: Options,
    source: &mut S,
    sink: &mut K,
    gate: &G,
) -> Status
    ensures { Obeyed S.left S.faults K.taken K.faults (Command.Run options) result source.old source.new sink.old sink.new }
{
    match lawful_logs(alloc, source) {
        Ok(plan) => finish(
            alloc,
            made_by_pollers(rt, alloc, &plan, options, gate),
            sink,
        ),
        Err(refusal) => refusal.write(sink),
    }
}

/// Returns the text of a run.
fn made_by_pollers<R: Threads + Wait + Sync, G: Gate>(
    rt: &R,
    alloc: Global,
    plan: &Plan,
    options: Options,
    gate: &G,
) -> Result<Vec<u8>, NoMemory>
    ensures { IfOk result (λ text. text.items ≡ outcome_text (outcome_of plan.now)) }
{
    let outcome = run(rt, alloc, plan, options, gate)?;
    write_outcome(alloc, &outcome)
}

/// Writes the logs that a number makes, with status Done, WriteFault or NoMemory.
pub fn gen_command<K: Sink>(alloc: Global, n: u64, sink: &mut K) -> Status
    ensures wrote { Wrote K.taken K.faults (done (text_of (made_of n))) result sink.old sink.new }
    ensures unread { IsUnread result }
{
    finish(alloc, generated(alloc, n), sink)
}

/// Returns the text of the logs that a number makes.
fn generated(alloc: Global, n: u64) -> Result<Vec<u8>, NoMemory>
    ensures { IfOk result (λ text. text.items ≡ text_of (made_of n)) }
{
    let input = make(alloc, n)?;
    write_logs(alloc, &input)
}

/// Runs pollers on the logs that a number makes, and writes the counts of what came of them, with status Done,
/// WriteFault or NoMemory. It waits for its workers.
pub fn selftest_command<R: Threads + Wait + Sync, K: Sink, G: Gate>(
    rt: &R,
    alloc: Global,
    n: u64,
    options: Options,
    sink: &mut K,
    gate: &G,
) -> Status
    ensures wrote { Wrote K.taken K.faults (done (counts_text n (outcome_of (made_of n)))) result sink.old sink.new }
    ensures unread { IsUnread result }
{
    finish(alloc, self_tested(rt, alloc, n, options, gate), sink)
}

/// Returns the line of a self-test.
#[tactic(auto, using(crate::proofs::TwoStores::as_many_stores))]
fn self_tested<R: Threads + Wait + Sync, G: Gate>(
    rt: &R,
    alloc: Global,
    n: u64,
    options: Options,
    gate: &G,
) -> Result<Vec<u8>, NoMemory>
    ensures { IfOk result (λ text. text.items ≡ counts_text n (outcome_of (made_of n))) }
{
    let input = make(alloc, n)?;
    let plan = match check(input) {
        Ok(plan) => plan,
        Err(CheckError::NoMemory) => return Err(NoMemory),
        Err(CheckError::Law(_)) => unreachable!(),
    };
    let outcome = run(rt, alloc, &plan, options, gate)?;
    write_counts(alloc, n, &outcome)
}

/// Writes the binary form of the logs that the source gives as a text. It doesn't check them.
#[tactic(auto, using(crate::proofs::Obeying::refused_obeyed))]
pub fn pack_command<S: Source, K: Sink>(alloc: Global, source: &mut S, sink: &mut K) -> Status
    ensures { Obeyed S.left S.faults K.taken K.faults Command.Pack result source.old source.new sink.old sink.new }
{
    match text_logs(alloc, source) {
        Ok(input) => finish(alloc, write_binary(alloc, &input), sink),
        Err(refusal) => refusal.write(sink),
    }
}

/// Writes the canonical text of the logs that the source gives as a binary file. It doesn't check them.
#[tactic(auto, using(crate::proofs::Obeying::refused_obeyed))]
pub fn unpack_command<S: Source, K: Sink>(alloc: Global, source: &mut S, sink: &mut K) -> Status
    ensures { Obeyed S.left S.faults K.taken K.faults Command.Unpack result source.old source.new sink.old sink.new }
{
    match binary_logs(alloc, source) {
        Ok(input) => finish(alloc, write_logs(alloc, &input), sink),
        Err(refusal) => refusal.write(sink),
    }
}

/// Does what a command says.
#[tactic(auto, using(crate::proofs::Obeying::unread_obeyed))]
fn obey<R: Threads + Wait + Sync, S: Source, K: Sink, G: Gate>(
    rt: &R,
    alloc: Global,
    command: &Command,
    source: &mut S,
    sink: &mut K,
    gate: &G,
) -> Status
    ensures { Obeyed S.left S.faults K.taken K.faults command.now result source.old source.new sink.old sink.new }
{
    match command {
        Command::Check => check_command(alloc, source, sink),
        Command::Fold => fold_command(alloc, source, sink),
        Command::History(key) => history_command(alloc, key, source, sink),
        Command::Run(options) => run_command(rt, alloc, *options, source, sink, gate),
        Command::Gen(n) => gen_command(alloc, *n, sink),
        Command::SelfTest(n, options) => selftest_command(rt, alloc, *n, *options, sink, gate),
        Command::Pack => pack_command(alloc, source, sink),
        Command::Unpack => unpack_command(alloc, source, sink),
    }
}

/// Does all that the program does. The words are those after the program's name. A worker passes the gate before
/// it handles a machine.
///
/// `run` and `selftest` wait for their workers, so nothing says that the call returns with them.
pub fn command<R: Threads + Wait + Sync, S: Source, K: Sink, G: Gate>(
    rt: &R,
    alloc: Global,
    words: &[String],
    source: &mut S,
    sink: &mut K,
    gate: &G,
) -> Status
    ensures kept { IfSome (bytes_for (is_read (bytes_of words.now)) (S.left source.old)) (λ bytes. KeepsTo (expected (bytes_of words.now) bytes) result (K.taken sink.old) (K.taken sink.new)) }
    ensures silent { IsSilent result → sink.new ≡ sink.old }

    // Words that are no command are refused before anything is read, and so it is with commands that need no logs.
    ensures to_end { is_read (bytes_of words.now) ≡ true → IsWritten result → IfSome (S.left source.old) (λ _. S.left source.new ≡ Some []) }
    ensures nothing_read { is_read (bytes_of words.now) ≡ false → source.new ≡ source.old }
    ensures usage { (result ≡ Status.Usage) ↔ (command_of (bytes_of words.now) ≡ None) }

    // A failed read, or a failed write, comes only where one failed in this call. Where none did, the
    // status is the expected one, or memory ran out.
    ensures read_fault { result ≡ Status.ReadFault → Rose (S.faults source.old) (S.faults source.new) }
    ensures write_fault { result ≡ Status.WriteFault → Rose (K.faults sink.old) (K.faults sink.new) }
    ensures complete { (is_read (bytes_of words.now) ≡ true → ¬ Rose (S.faults source.old) (S.faults source.new)) → ¬ Rose (K.faults sink.old) (K.faults sink.new)
        → IfSome (bytes_for (is_read (bytes_of words.now)) (S.left source.old)) (λ bytes. IsExpected (expected (bytes_of words.now) bytes) result) }

    ensures kept_read_faults { S.faults source.old ≤ S.faults source.new }
    ensures kept_write_faults { K.faults sink.old ≤ K.faults sink.new }
{
    match command_of(alloc, words) {
        Err(NoMemory) => Status::NoMemory,
        Ok(None) => Status::Usage,
        Ok(Some(command)) => obey(rt, alloc, &command, source, sink, gate),
    }
}
