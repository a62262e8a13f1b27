ghost use Rattle.std.specs.Prelude.{◌≡◌, ◌++◌, OnOk};
ghost use Rattle.std.specs.Fmt.{signed_decimal};
ghost use Rattle.sf_algebra.specs.Matrices.{row_degrees};
ghost use Rattle.sf_algebra.specs.Printing.{comma, degrees_text};
ghost use Rattle.sf_text.specs.Joins.{separator_after};

use crate::printing::joins::separate;
use itoa::Buffer;
use sf_field::OutOfMemory;
use sf_matrix::Matrix;

/// Writes `(d1,..,dk)` behind what `text` holds.
pub fn print_degrees(text: &mut Vec<u8>, degrees: &[i32]) -> Result<(), OutOfMemory>
    ensures ok { OnOk result (text.new.items ≡ text.old.items ++ degrees_text degrees.now) }
{
    text.push(b'(')?;
    for i in 0..degrees.len() {
        print_degree(text, i > 0, degrees[i])?;
    }
    text.push(b')')?;
    Ok(())
}

/// Writes the degrees of a matrix's rows in the same way.
pub fn print_row_degrees(text: &mut Vec<u8>, m: &Matrix) -> Result<(), OutOfMemory>
    ensures ok { OnOk result (text.new.items
        ≡ text.old.items ++ degrees_text (row_degrees m.now)) }
{
    text.push(b'(')?;
    for i in 0..m.rows() {
        print_degree(text, i > 0, m.row(i).degree())?;
    }
    text.push(b')')?;
    Ok(())
}

fn print_degree(text: &mut Vec<u8>, follows: bool, degree: i32) -> Result<(), OutOfMemory>
    ensures ok { OnOk result (text.new.items
        ≡ text.old.items ++ separator_after follows comma ++ signed_decimal degree) }
{
    let mut buffer = Buffer::new();
    separate(text, follows, b',')?;
    text.extend_from_slice(buffer.format(degree).as_bytes())?;
    Ok(())
}
