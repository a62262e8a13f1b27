ghost use Rattle.std.specs.Prelude.{◌<◌};

use crate::{MemSource, ReadError, read_all};
use std::alloc::Global;
use std::test::Fail;

// Five bytes, which come in pieces of at most `piece` and fail at pull `fail`.
fn hello(alloc: Global, piece: usize, fail: u32) -> Result<MemSource, Fail>
    requires { 0 < piece }
{
    let bytes = Vec::from_slice(alloc, b"hello")?;
    Ok(MemSource::new(bytes, piece, vec![in alloc; fail]?))
}

#[test]
fn reads_to_the_end_in_pieces(rt: HostRuntime) -> Result<(), Fail> {
    for piece in [1, 2, 5, 9] {
        let mut source = hello(rt.alloc(), piece, 0)?;
        let bytes = read_all(rt.alloc(), &mut source, 5)?;
        assert_eq!(rt; bytes.as_slice(), b"hello".as_slice(), "pieces of {piece}");
    }
    Ok(())
}

// In pieces of 1 byte the end is pull 6. After a fault the next call reads what is left.
#[test]
fn fails_at_each_pull(rt: HostRuntime) -> Result<(), Fail> {
    let rows: [(u32, &[u8]); 6] = [
        (1, b"hello"),
        (2, b"ello"),
        (3, b"llo"),
        (4, b"lo"),
        (5, b"o"),
        (6, b""),
    ];
    for (fail, rest) in rows {
        let mut source = hello(rt.alloc(), 1, fail)?;
        let first = read_all(rt.alloc(), &mut source, 5);
        assert!(rt; matches!(first, Err(ReadError::Fault)), "pull {fail}");
        let second = read_all(rt.alloc(), &mut source, 5)?;
        assert_eq!(rt; second.as_slice(), rest, "after pull {fail}");
    }
    let mut source = hello(rt.alloc(), 1, 7)?;
    let bytes = read_all(rt.alloc(), &mut source, 5)?;
    assert_eq!(rt; bytes.as_slice(), b"hello".as_slice());
    Ok(())
}

#[test]
fn stops_one_byte_past_the_cap(rt: HostRuntime) -> Result<(), Fail> {
    let rows: [(usize, &[u8]); 3] = [(4, b""), (3, b"o"), (0, b"ello")];
    for (cap, rest) in rows {
        let mut source = hello(rt.alloc(), 2, 0)?;
        let first = read_all(rt.alloc(), &mut source, cap);
        assert!(rt; matches!(first, Err(ReadError::TooLong)), "cap {cap}");
        let second = read_all(rt.alloc(), &mut source, 5)?;
        assert_eq!(rt; second.as_slice(), rest, "after cap {cap}");
    }
    Ok(())
}
