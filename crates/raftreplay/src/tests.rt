ghost use Rattle.std.specs.Prelude.{◌<◌};

mod gates;
mod orders;

use super::*;
use rs_base::{Gate, MemSink, MemSource};
use std::alloc::Global;
use std::sync::Wait;
use std::test::Fail;
use std::thread::Threads;

/// The log of one region, with each kind of reply that one region gives.
const LOGS: &str =
    "raftreplay 1\nstore 3\nregion 7 - 6d\nlog 7\n6 1 1 empty\n7 1 1 write put 61 31 put 62 -\n8 1 2 write put 61 32\n9 9 1 write put 61 33 del 62\n10 1 1 write put 61 34 put 6d 35\nend\n";

/// What comes of it.
const OUTCOME: &str =
    "store 3\nregion 7 epoch 1 1 range - 6d applied 10 left 0 normal\nreply 7 6 empty\nreply 7 7 ok 1\nreply 7 8 stale 1 1\nreply 7 9 ok 1\nreply 7 10 outside 6d\npair 61 33\nhistory 61 7/7=31 7/9=33\nhistory 62 7/7=- 7/9!\n";

/// The logs of two stores: a split, and a merge back. The second store has all of it but the end of a log, which
/// a commit carries to it.
const TWO_STORES: &str =
    "raftreplay 1\nstore 1\nregion 1 - -\nlog 1\n6 1 1 empty\n7 1 1 write put 6131 30 put 6d31 31\n8 1 1 write put 7a31 32\n9 1 1 split right 2 6d\n10 1 2 write put 6d32 33 del 7a31\n11 1 1 write put 6132 34\n12 1 2 commit 2 9 2\ncarry 8 1 2 write put 6133 38\ncarry 9 1 2 prepare 1\n13 1 4 write put 6133 39\nlog 2\n6 1 2 empty\n7 1 2 write put 6131 35 put 6132 36\n8 1 2 write put 6133 38\n9 1 2 prepare 1\nstore 2\nregion 1 - -\nlog 1\n6 1 1 empty\n7 1 1 write put 6131 30 put 6d31 31\n8 1 1 write put 7a31 32\n9 1 1 split right 2 6d\n10 1 2 write put 6d32 33 del 7a31\n11 1 1 write put 6132 34\n12 1 2 commit 2 9 2\ncarry 8 1 2 write put 6133 38\ncarry 9 1 2 prepare 1\n13 1 4 write put 6133 39\nlog 2\n6 1 2 empty\n7 1 2 write put 6131 35 put 6132 36\nend\n";

/// What comes of each of the two stores, after the line of its id.
const TWO_STORES_BODY: &str =
    "region 1 epoch 1 4 range - - applied 13 left 0 normal\nregion 2 epoch 2 3 range - 6d applied 9 left 0 merged 1\nreply 1 6 empty\nreply 1 7 ok 1\nreply 1 8 ok 1\nreply 1 9 ok 2\nreply 1 10 ok 2\nreply 1 11 stale 1 2\nreply 1 12 ok 4\nreply 1 13 ok 4\nreply 2 6 empty\nreply 2 7 ok 2\nreply 2 8 ok 2\nreply 2 9 ok 3\npair 6131 35\npair 6132 36\npair 6133 39\npair 6d31 31\npair 6d32 33\nhistory 6131 1/7=30 2/7=35\nhistory 6132 2/7=36\nhistory 6133 2/8=38 1/13=39\nhistory 6d31 1/7=31\nhistory 6d32 1/10=33\nhistory 7a31 1/8=32 1/10!\n";

/// A run of the program on devices over memory: its status, what was written, and the faults of both devices.
#[derive(Drop)]
struct Ran {
    status: Status,
    text: Vec<u8>,
    faults: (u64, u64),
}

/// How many bytes a device moves in a call, and which of its calls fails, 0 for none.
#[derive(Clone, Copy)]
struct Device {
    most: usize,
    fails: u64,
}

const SOUND: Device = Device {
    most: 4096,
    fails: 0,
};

fn words_of(alloc: Global, text: &str) -> Result<Vec<String>, Fail> {
    let mut words = Vec::new(alloc);
    for word in text.split_whitespace() {
        words.push(String::from_str(alloc, word)?)?;
    }
    Ok(words)
}

/// A run on sound devices, with no worker held up.
fn replay<R: Threads + Wait + Sync>(
    rt: &R,
    alloc: Global,
    words: &str,
    text: &str,
) -> Result<Ran, Fail> {
    replay_on(rt, alloc, words, text, SOUND, SOUND, &OpenGate)
}

fn replay_on<R: Threads + Wait + Sync, G: Gate>(
    rt: &R,
    alloc: Global,
    words: &str,
    text: &str,
    reads: Device,
    writes: Device,
    gate: &G,
) -> Result<Ran, Fail>
    requires reads { 0 < reads.most }
    requires writes { 0 < writes.most }
{
    let words = words_of(alloc, words)?;
    let bytes = Vec::from_slice(alloc, text.as_bytes())?;
    let mut source = MemSource::new(bytes, reads.most, vec![in alloc; reads.fails]?);
    let mut sink = MemSink::reserved(alloc, 4096, writes.most, vec![in alloc; writes.fails]?)?;
    let status = command(rt, alloc, &words, &mut source, &mut sink, gate);
    Ok(Ran {
        status,
        text: Vec::from_slice(alloc, sink.bytes())?,
        faults: (source.faults(), sink.faults()),
    })
}

#[test]
fn each_text_has_its_status_and_answer(rt: HostRuntime) -> Result<(), Fail> {
    let alloc = rt.alloc();
    let both = format!(in alloc; "store 1\n{TWO_STORES_BODY}store 2\n{TWO_STORES_BODY}")?;
    for (words, text, status, answer) in [
        ("fold", TWO_STORES, Status::Done, both.as_str()),
        ("run --chunk 1", TWO_STORES, Status::Done, both.as_str()),
        ("check", LOGS, Status::Done, "lawful 1 1 5\n"),
        ("history 6D", LOGS, Status::Done, "store 3\nhistory 6d\n"),
        ("fold x", LOGS, Status::Usage, ""),
    ] {
        let ran = replay(&rt, alloc, words, text)?;
        assert_eq!(rt; ran.status, status, "{words}");
        assert_eq!(rt; ran.text.as_slice(), answer.as_bytes(), "{words}");
        assert_eq!(rt; ran.faults, (0, 0));
    }
    Ok(())
}

#[test]
fn a_read_that_fails_writes_nothing(rt: HostRuntime) -> Result<(), Fail> {
    // The bytes of a call, and the first call that comes after the reading of the whole text.
    for (most, after) in [(1, 174u64), (7, 27), (64, 5)] {
        assert!(rt; most > 0);
        for call in 1..after + 1 {
            let reads = Device { most, fails: call };
            let ran = replay_on(&rt, rt.alloc(), "fold", LOGS, reads, SOUND, &OpenGate)?;
            let fails = call < after;
            assert_eq!(rt;
                ran.status == Status::ReadFault,
                fails,
                "{most} bytes, call {call}"
            );
            assert_eq!(rt;
                ran.status == Status::Done,
                !fails,
                "{most} bytes, call {call}"
            );
            assert_eq!(rt; ran.text.is_empty(), fails);
            assert_eq!(rt; ran.faults, (u64::from(fails), 0));
        }
    }
    Ok(())
}

#[test]
fn a_write_that_fails_leaves_a_front_of_the_text(rt: HostRuntime) -> Result<(), Fail> {
    for call in 1..25u64 {
        let writes = Device {
            most: 10,
            fails: call,
        };
        let ran = replay_on(&rt, rt.alloc(), "fold", LOGS, SOUND, writes, &OpenGate)?;
        let written = 10 * (call as usize - 1);
        let fails = written < OUTCOME.len();
        let front = OUTCOME.len().min(written);
        let whole = if fails { front } else { OUTCOME.len() };
        let (expected, _) = OUTCOME.as_bytes().split_at(whole);
        assert_eq!(rt; ran.status == Status::WriteFault, fails, "call {call}");
        assert_eq!(rt; ran.text.as_slice(), expected, "call {call}");
    }
    let both = Device { most: 10, fails: 1 };
    let ran_both = replay_on(&rt, rt.alloc(), "fold", LOGS, both, both, &OpenGate)?;
    assert_eq!(rt; ran_both.status, Status::ReadFault);
    assert_eq!(rt; ran_both.faults, (1, 0));
    let refused = replay_on(&rt, rt.alloc(), "fold x", LOGS, both, both, &OpenGate)?;
    assert_eq!(rt; refused.status, Status::Usage);
    assert_eq!(rt; refused.faults, (0, 0));
    Ok(())
}
