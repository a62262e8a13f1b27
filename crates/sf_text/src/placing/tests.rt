//! Written rows, by worked values.

use super::{first_row, is_single_row};
use crate::written_matrix;
use std::test::Fail;

#[test]
fn single_rows(rt: HostRuntime) -> Result<(), Fail> {
    let table: [(&[u8], usize, bool); 5] = [
        (b"[]", 0, true),
        (b"[]", 1, false),
        (b"[x,y]", 2, true),
        (b"[x,y]", 1, false),
        (b"[x;y]", 1, false),
    ];
    for (text, columns, single) in table {
        let matrix = written_matrix(rt.alloc(), text)?.ok_or("the matrix")?;
        assert_eq!(rt; is_single_row(columns, matrix.rows.as_slice()), single);
    }
    let matrix = written_matrix(rt.alloc(), b"[x,y;0]")?.ok_or("the matrix")?;
    assert_eq!(rt; first_row(matrix.rows.as_slice()).len(), 2);
    Ok(())
}
