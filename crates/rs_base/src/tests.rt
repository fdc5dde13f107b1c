ghost use Rattle.std.specs.Prelude.{◌<◌};

use super::*;
use std::alloc::Global;
use std::test::Fail;

const TEXT: [u8; 44] = *b"The quick brown fox jumps over the lazy dog.";

/// A source of the text that gives at most `most` bytes in a call and fails in one call.
fn source_of(alloc: Global, most: usize, call: u64) -> Result<MemSource, Fail>
    requires { 0 < most }
{
    let text = TEXT.to_vec(alloc)?;
    Ok(MemSource::new(text, most, vec![in alloc; call]?))
}

#[test]
fn a_read_fails_in_the_listed_call_alone(rt: HostRuntime) -> Result<(), Fail> {
    // The bytes of a call, and the first call that comes after the reading of the whole text.
    for (most, after) in [(1, 46u64), (7, 9), (64, 3)] {
        assert!(rt; most > 0);
        for call in 1..after + 1 {
            let mut source = source_of(rt.alloc(), most, call)?;
            let outcome = read_all(rt.alloc(), &mut source, 44);
            let expected = if call < after {
                Err(ReadError::ReadFault)
            } else {
                Ok(TEXT.to_vec(rt.alloc())?)
            };
            assert_eq!(rt; outcome, expected, "{most} bytes a call, call {call} fails");
            assert_eq!(rt; source.faults(), u64::from(call < after));
        }
    }
    Ok(())
}

#[test]
fn a_source_goes_on_after_a_fault(rt: HostRuntime) -> Result<(), Fail> {
    let mut source = source_of(rt.alloc(), 10, 3)?;
    assert_eq!(rt;
        read_all(rt.alloc(), &mut source, 44),
        Err(ReadError::ReadFault)
    );
    let rest = read_all(rt.alloc(), &mut source, 44)?;
    assert_eq!(rt; rest.as_slice(), b"jumps over the lazy dog.".as_slice());
    assert_eq!(rt; source.faults(), 1);
    Ok(())
}

#[test]
fn a_write_fails_in_the_listed_call_alone(rt: HostRuntime) -> Result<(), Fail> {
    for (call, taken) in [(1u64, 0usize), (2, 10), (3, 20), (4, 30), (5, 40), (6, 44)] {
        let mut sink = MemSink::reserved(rt.alloc(), 4_096, 10, vec![in rt.alloc(); call]?)?;
        let expected = if call < 6 { Err(WriteFault) } else { Ok(()) };
        assert_eq!(rt; write_all(&mut sink, &TEXT), expected, "call {call} fails");
        assert_eq!(rt; Some(sink.bytes()), TEXT.get(..taken));
        assert_eq!(rt; sink.faults(), u64::from(call < 6));
    }
    Ok(())
}

#[test]
fn a_full_sink_takes_no_byte_more(rt: HostRuntime) -> Result<(), Fail> {
    let mut sink = MemSink::reserved(rt.alloc(), 9, 4, Vec::new(rt.alloc()))?;
    assert_eq!(rt; write_all(&mut sink, &TEXT), Err(WriteFault));
    assert_eq!(rt; sink.bytes(), b"The quick".as_slice());
    assert_eq!(rt; sink.write(b"!"), Err(Failed));
    assert_eq!(rt; sink.write(b""), Ok(0));
    assert_eq!(rt; write_all(&mut sink, b""), Ok(()));
    assert_eq!(rt; sink.faults(), 2);
    Ok(())
}
