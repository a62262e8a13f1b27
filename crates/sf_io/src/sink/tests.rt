use crate::{MemSink, WriteFault, write_all};
use std::test::Fail;

// In pieces of 1 byte push 5 is the last. A call after a fault writes after what was written.
#[test]
fn fails_at_each_push(rt: HostRuntime) -> Result<(), Fail> {
    let rows: [(u32, &[u8], &[u8]); 7] = [
        (0, b"hello", b"hello!"),
        (1, b"", b"!"),
        (2, b"h", b"h!"),
        (3, b"he", b"he!"),
        (4, b"hel", b"hel!"),
        (5, b"hell", b"hell!"),
        (7, b"hello", b"hello!"),
    ];
    for (fail, first, second) in rows {
        let mut sink = MemSink::new(rt.alloc(), 1, vec![in rt.alloc(); fail]?);
        sink.reserve(6)?;
        let written = write_all(&mut sink, b"hello");
        assert_eq!(rt; written.is_ok(), first.len() == 5, "push {fail}");
        assert_eq!(rt; sink.bytes(), first, "push {fail}");
        write_all(&mut sink, b"!")?;
        assert_eq!(rt; sink.bytes(), second, "after push {fail}");
    }
    Ok(())
}

#[test]
fn takes_what_there_is_room_for(rt: HostRuntime) -> Result<(), Fail> {
    let mut sink = MemSink::new(rt.alloc(), 2, Vec::new(rt.alloc()));
    assert_eq!(rt; write_all(&mut sink, b"h"), Err(WriteFault));
    sink.reserve(3)?;
    assert_eq!(rt; write_all(&mut sink, b"hello"), Err(WriteFault));
    assert_eq!(rt; sink.bytes(), b"hel".as_slice());
    sink.reserve(1)?;
    sink.reserve(1)?;
    assert_eq!(rt; write_all(&mut sink, b"lo"), Ok(()));
    assert_eq!(rt; sink.bytes(), b"hello".as_slice());
    Ok(())
}
