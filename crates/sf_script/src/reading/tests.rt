//! Lines that aren't in the grammar, with the columns at which they leave it, and what other lines ask for.
use crate::{Command, Query, ReadText, read_line};
use std::alloc::Global;
use std::test::Fail;

/// The columns come from an independent program, which reads the grammar as an automaton.
const MALFORMED: [(&[u8], u32); 50] = [
    (b"foo", 2),
    (b" show K", 1),
    (b"show", 5),
    (b"show 1", 6),
    (b"show K L", 8),
    (b"showK", 5),
    (b"SHOW K", 1),
    (b"spectral", 9),
    (b"spectral one", 10),
    (b"spectral -", 11),
    (b"spectral 1234567", 16),
    (b"spectral 1 2", 12),
    (b"ring 101", 9),
    (b"ring x y", 6),
    (b"ring -101 x", 6),
    (b"ring 1234567890123456789 x", 24),
    (b"ring 101 x 2y", 12),
    (b"ring 101 x y_ _", 15),
    (b"limit 40 x", 10),
    (b"module K", 9),
    (b"module K degree 0 relations [x]", 16),
    (b"module K degrees 0 1", 21),
    (b"module K degrees 0 relations [x;", 33),
    (b"module K degrees 0 relations [x]]", 33),
    (b"module K degrees 0 relations [x ;y]", 32),
    (b"module K degrees 0x relations [x]", 19),
    (b"module K degrees 0 relation [x]", 28),
    (
        b"module abcdefghijklmnopqrstuvwxyzABCDEFG degrees 0 relations [x]",
        40,
    ),
    (b"map f K [x]", 9),
    (b"map f K L x", 11),
    (b"map f K L [x,]", 14),
    (b"basis K [x]", 9),
    (b"member K", 9),
    (b"member K [x^1234]", 16),
    (b"member K [a*b*c*d*e*f*g]", 22),
    (b"lift K [3*x*4]", 13),
    (b"lift K [x--y]", 11),
    (b"lift K [+x]", 9),
    (b"lift K []]", 10),
    (b"syz -K", 5),
    (b"kernel f g", 10),
    (b"image", 6),
    (b"let F kernel f", 7),
    (b"let F = show K", 9),
    (b"let F = kernel", 15),
    (b"let F = homs K L", 12),
    (b"letter F = kernel f", 4),
    (b"works", 5),
    (b"pages K 1 0 0", 5),
    (b"bicomplexes", 10),
];

fn column_of(alloc: Global, line: &[u8]) -> Option<u32> {
    if line.len() > 100 {
        return None;
    }
    match read_line(alloc, line) {
        Err(ReadText::Syntax { col }) => Some(col),
        _ => None,
    }
}

#[test]
fn columns(rt: HostRuntime) -> Result<(), Fail> {
    for (line, column) in &MALFORMED {
        assert_eq!(rt; column_of(rt.alloc(), line), Some(*column));
    }
    Ok(())
}

#[test]
fn lines(rt: HostRuntime) -> Result<(), Fail> {
    let alloc = rt.alloc();
    assert!(rt; read_line(alloc, b"# note")?.is_none());
    assert!(rt; read_line(alloc, b"   ")?.is_none());
    let line = read_line(alloc, b"spectral -3")?;
    assert!(rt;
        matches!(
            line.map(|l| l.command),
            Some(Command::Spectral { version: -3 })
        )
    );
    let line = read_line(alloc, b"ring 101 x  y ")?;
    assert!(rt;
        matches!(
            line.map(|l| l.command),
            Some(Command::Ring { modulus: 101, .. })
        )
    );
    let line = read_line(alloc, b"module K degrees 0 -1 relations [x,1]")?;
    assert!(rt; matches!(line.map(|l| l.command), Some(Command::Module { .. })));
    let line = read_line(alloc, b"map f K L [x]")?;
    assert!(rt; matches!(line.map(|l| l.command), Some(Command::Map { .. })));
    let line = read_line(alloc, b"let F = kernel f")?;
    assert!(rt;
        matches!(
            line.map(|l| l.command),
            Some(Command::Let {
                query: Query::Kernel { .. },
                ..
            })
        )
    );
    let line = read_line(alloc, b"coker f")?;
    assert!(rt;
        matches!(
            line.map(|l| l.command),
            Some(Command::Ask {
                query: Query::Coker { .. }
            })
        )
    );
    let line = read_line(alloc, b"let F = ext 1 K L")?;
    assert!(rt; matches!(line.map(|l| l.command), Some(Command::Later)));
    let line = read_line(alloc, b"@a show K")?;
    assert!(rt; matches!(line.map(|l| l.command), Some(Command::Later)));
    Ok(())
}
