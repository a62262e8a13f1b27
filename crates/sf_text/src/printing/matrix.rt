ghost use Rattle.std.specs.Prelude.{◌≡◌, ◌++◌, length, OnOk};
ghost use Rattle.sf_algebra.specs.Printing.{rows_text, matrix_text};

use crate::printing::degrees::{print_degrees, print_row_degrees};
use crate::printing::joins::separate;
use crate::printing::row::print_row;
use sf_field::OutOfMemory;
use sf_matrix::{Matrix, Name};

/// Writes `ROWS->COLUMNS ENTRIES` behind what `text` holds.
///
/// These are the degrees of the rows, those of the columns, and the entries. `names` are those of the
/// ring's variables; a variable without a name is left out.
pub fn print_matrix(text: &mut Vec<u8>, names: &[Name], m: &Matrix) -> Result<(), OutOfMemory>
    ensures ok { OnOk result (text.new.items ≡ text.old.items ++ matrix_text names.now m.now) }
{
    print_row_degrees(text, m)?;
    text.extend_from_slice(b"->")?;
    print_degrees(text, m.target().degrees.as_slice())?;
    text.push(b' ')?;
    print_rows(text, names, m)
}

/// Writes the rows in brackets, separated by semicolons.
fn print_rows(text: &mut Vec<u8>, names: &[Name], m: &Matrix) -> Result<(), OutOfMemory>
    ensures ok { OnOk result (text.new.items
        ≡ text.old.items ++ rows_text names.now (length m.now.target) m.now.rows) }
{
    let columns = m.cols();
    if columns == 0 {
        text.extend_from_slice(b"[]")?;
        return Ok(());
    }
    text.push(b'[')?;
    for i in 0..m.rows() {
        separate(text, i > 0, b';')?;
        print_row(text, names, m.row(i), columns)?;
    }
    text.push(b']')?;
    Ok(())
}
