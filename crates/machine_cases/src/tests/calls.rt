//! What no case of the program shows: the canonical text, the lengths of keys, and what messages weigh.

use rs_key::{Key, Rows, Same, TryClone, Value};
use rs_msg::{ApplyMsg, PeerMsg, StoreMsg};
use rs_text::{read_logs, write_logs};
use std::mem::size_of;
use std::test::Fail;

/// Each text with its canonical text.
const TEXTS: [(&str, &str); 4] = [
    ("raftreplay 1\nend\n", "raftreplay 1\nend\n"),
    (
        "  raftreplay   1 \nstore  3 \n region 7 - 6D\nlog 7\n6 1 1 write put aB - del 00\nend\n",
        "raftreplay 1\nstore 3\nregion 7 - 6d\nlog 7\n6 1 1 write put ab - del 00\nend\n",
    ),
    (
        "raftreplay 1\nstore 1\nlog 1\n6 1 1 split right 2 67 3 6d\n7 1 1 commit 2 7 2\ncarry 6 1 1 empty\ncarry 7 1 1 prepare 1\nend\n",
        "raftreplay 1\nstore 1\nlog 1\n6 1 1 split right 2 67 3 6d\n7 1 1 commit 2 7 2\ncarry 6 1 1 empty\ncarry 7 1 1 prepare 1\nend\n",
    ),
    (
        "raftreplay 2\nstore 1\nregion 1 - - 1 2\nlog 1\n6 1 1 add 3\n7 2 1 remove 2\n8 3 1 prepare 2\n9 4 2 rollback 8\nend\n",
        "raftreplay 2\nstore 1\nregion 1 - - 1 2\nlog 1\n6 1 1 add 3\n7 2 1 remove 2\n8 3 1 prepare 2\n9 4 2 rollback 8\nend\n",
    ),
];

#[test]
fn texts_are_read_and_written(rt: HostRuntime) -> Result<(), Fail> {
    for (text, canonical) in TEXTS {
        let input = read_logs(rt.alloc(), text.as_bytes())?;
        let written = write_logs(rt.alloc(), &input)?;
        assert_eq!(rt; written.as_slice(), canonical.as_bytes());
    }
    Ok(())
}

#[test]
fn lengths_of_keys_and_values(rt: HostRuntime) -> Result<(), Fail> {
    for (length, is_key, is_value) in [
        (0, false, true),
        (1, true, true),
        (256, true, true),
        (257, false, true),
        (4096, false, true),
        (4097, false, false),
    ] {
        let bytes = vec![in rt.alloc(); 7u8; length]?;
        assert_eq!(rt;
            Key::new(rt.alloc(), bytes.as_slice()).is_ok(),
            is_key,
            "key of {length}"
        );
        assert_eq!(rt;
            Value::new(rt.alloc(), bytes.as_slice()).is_ok(),
            is_value,
            "value of {length}"
        );
    }
    let copy = Value::new(rt.alloc(), b"ab".as_slice())?.try_clone()?;
    assert_eq!(rt; copy.as_bytes(), b"ab".as_slice());
    Ok(())
}

#[test]
fn a_list_is_gone_over_by_for(rt: HostRuntime) -> Result<(), Fail> {
    let rows = Rows::from_vec(vec![in rt.alloc(); 3u64, 1, 4]?);
    let mut seen = Rows::new(rt.alloc());
    for row in &rows {
        seen.push(*row)?;
    }
    assert!(rt; seen.is_same(&rows));
    Ok(())
}

#[test]
fn messages_are_small(rt: HostRuntime) {
    assert!(rt; size_of::<PeerMsg<'_>>() <= 32);
    assert!(rt; size_of::<ApplyMsg<'_>>() <= 32);
    assert!(rt; size_of::<StoreMsg<'_>>() <= 32);
}

fn needs_send<X: Send + Drop>(_x: X) {}

// Messages go from thread to thread.
fn cross<'p>(peer: PeerMsg<'p>, apply: ApplyMsg<'p>, store: StoreMsg<'p>) {
    needs_send(peer);
    needs_send(apply);
    needs_send(store);
}
