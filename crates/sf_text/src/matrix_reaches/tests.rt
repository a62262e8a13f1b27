//! How far texts reach, as an independent program found.

use super::matrix_reach;
use crate::{ReadText, read_matrix};
use std::test::Fail;

#[test]
fn reaches(rt: HostRuntime) -> Result<(), Fail> {
    let table: [(&[u8], usize); 16] = [
        (b"", 0),
        (b"(x)", 0),
        (b"[]]", 2),
        (b"[;x]", 1),
        (b"[x;]", 3),
        (b"[x,]", 3),
        (b"[x[y]]", 2),
        (b"[x,y;0]", 7),
        (b"[--x]", 2),
        (b"[x+-y]", 3),
        (b"[3x]", 2),
        (b"[2*3]", 3),
        (b"[x^1234]", 6),
        (b"[x^12^3]", 5),
        (b"[2*x*y*z*x*y*z*x]", 14),
        (b"[1234567890123456789]", 19),
    ];
    for (text, reach) in table {
        assert_eq!(rt; matrix_reach(text), reach);
    }
    Ok(())
}

#[test]
fn columns(rt: HostRuntime) -> Result<(), Fail> {
    let matrix = read_matrix(rt.alloc(), b"[x,y;0]").map_err(|_| "the matrix")?;
    assert_eq!(rt; matrix.rows.len(), 2);
    match read_matrix(rt.alloc(), b"[x;]") {
        Err(ReadText::Syntax { col }) => assert_eq!(rt; col, 4),
        _ => return Err(Fail::from("the column")),
    }
    Ok(())
}
