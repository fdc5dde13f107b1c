use crate::Status;
use crate::tests::{SOUND, TWO_STORES, replay_on};
use rs_base::Gate;
use std::sync::Wait;
use std::sync::atomic::{AtomicU64, Ordering};
use std::test::Fail;
use std::thread;

/// Two regions of one store, and a merge of one into the other.
const MERGE: &str =
    "raftreplay 1\nstore 1\nregion 1 - 6d\nregion 2 6d -\nlog 1\n6 1 1 prepare 2\n7 2 2 write put 61 31\nlog 2\n6 1 1 commit 1 6 0\nend\n";

/// A gate that holds the first worker in front of its machine until another worker's machine passes.
#[derive(Drop)]
struct Meeting {
    /// A worker's number and one while it is held, or one of the three below.
    state: AtomicU64,
}

/// No worker has come.
const FREE: u64 = 0;

/// Another worker's machine passed while the first was held.
const MET: u64 = 1 << 40;

/// None passed.
const ALONE: u64 = 1 << 41;

/// The most turns for which the first worker is held.
const TURNS: u32 = 1_000_000;

impl Meeting {
    fn swap(&self, from: u64, to: u64) -> Result<u64, u64> {
        self.state
            .compare_exchange(from, to, Ordering::SeqCst, Ordering::SeqCst)
    }

    fn has_met(&self) -> bool {
        self.state.load(Ordering::SeqCst) == MET
    }

    fn hold(&self, own: u64) {
        for _ in 0..TURNS {
            if self.has_met() {
                return;
            }
            thread::yield_now();
        }
        let _ = self.swap(own, ALONE);
    }
}

impl Gate for Meeting {
    fn pass<R: Wait>(&self, _rt: &R, worker: u32, _address: u32) {
        let own = u64::from(worker) + 1;
        match self.swap(FREE, own) {
            Ok(_) => self.hold(own),
            Err(held) if held != own && held < MET => {
                let _ = self.swap(held, MET);
            }
            Err(_) => {}
        }
    }
}

#[test]
fn two_machines_at_once(rt: HostRuntime) -> Result<(), Fail> {
    for (words, text) in [("run", MERGE), ("selftest 0", "")] {
        let gate = Meeting {
            state: AtomicU64::new(FREE),
        };
        let ran = replay_on(&rt, rt.alloc(), words, text, SOUND, SOUND, &gate)?;
        assert_eq!(rt; ran.status, Status::Done, "{words}");
        assert!(rt; gate.has_met(), "{words}");
    }
    Ok(())
}

/// A gate that counts how often machines of the first four addresses pass.
#[derive(Drop)]
struct Counter {
    first: AtomicU64,
    second: AtomicU64,
    third: AtomicU64,
    fourth: AtomicU64,
}

impl Gate for Counter {
    fn pass<R: Wait>(&self, _rt: &R, _worker: u32, address: u32) {
        let passes = match address {
            0 => &self.first,
            1 => &self.second,
            2 => &self.third,
            _ => &self.fourth,
        };
        passes.fetch_add(1, Ordering::SeqCst);
    }
}

/// A machine applies one entry in a turn here, and its peer machine has a turn too.
#[test]
fn turns_pass_the_gate(rt: HostRuntime) -> Result<(), Fail> {
    let gate = Counter {
        first: AtomicU64::new(0),
        second: AtomicU64::new(0),
        third: AtomicU64::new(0),
        fourth: AtomicU64::new(0),
    };
    let words = "run --batch 1 --chunk 1";
    let ran = replay_on(&rt, rt.alloc(), words, TWO_STORES, SOUND, SOUND, &gate)?;
    assert_eq!(rt; ran.status, Status::Done);
    for (passes, least) in [
        (&gate.first, 9),
        (&gate.second, 5),
        (&gate.third, 9),
        (&gate.fourth, 5),
    ] {
        assert!(rt; passes.load(Ordering::SeqCst) >= least);
    }
    Ok(())
}
