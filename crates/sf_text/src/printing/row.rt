ghost use Rattle.std.specs.Prelude.{◌≡◌, ◌+◌, ◌^◌, ◌<◌, ◌∷◌, ◌++◌, drop, length, IfSome, IfNone, IsSome, IfOk, OnOk};
ghost use Rattle.sf_algebra.specs.Printing.{polynomial_text, row_text};
ghost use Rattle.sf_algebra.specs.Vectors.{entry};
ghost use Rattle.sf_text.specs.Columns.{IsFromColumn, SameEntriesPast};

use crate::printing::joins::separate;
use crate::printing::term::print_term;
use sf_field::OutOfMemory;
use sf_matrix::{Name, Vector};
use sf_mono::Mono;

/// Writes a row of a matrix with this many columns, the entries separated by commas.
///
/// The terms of column 0 stand first, then those of column 1, and so on, so each term is looked at once.
pub fn print_row(
    text: &mut Vec<u8>,
    names: &[Name],
    row: &Vector,
    columns: usize,
) -> Result<(), OutOfMemory>
    ensures ok { OnOk result (text.new.items
        ≡ text.old.items ++ row_text names.now columns row.now.terms) }
{
    let mut next = 0;
    for column in 0..columns {
        separate(text, column > 0, b',')?;
        next = print_entry(text, names, row, column, next)?;
    }
    Ok(())
}

/// Writes the entry at a column, whose terms stand from number `start` on.
///
/// It returns the number of the first term past the column.
fn print_entry(
    text: &mut Vec<u8>,
    names: &[Name],
    row: &Vector,
    column: usize,
    start: usize,
) -> Result<usize, OutOfMemory>
    requires { IsFromColumn column start row.now.terms }
    ensures ok { OnOk result (text.new.items
        ≡ text.old.items ++ polynomial_text names.now (entry column (drop start row.now.terms))) }
    ensures past { IfOk result (λ next. IsFromColumn (column + 1) next row.now.terms) }
    ensures later { IfOk result (λ next. SameEntriesPast column start next row.now.terms) }
{
    let mut next = start;
    while let Some((a, coefficient)) = term_at(row, column, next) {
        separate(text, next > start, b'+')?;
        print_term(text, names, a, coefficient)?;
        next += 1;
    }
    if next > start {
        return Ok(next);
    }
    text.push(b'0')?;
    Ok(next)
}

/// The monomial and the coefficient of term `k`, if there is one and it stands at the column.
fn term_at(row: &Vector, column: usize, k: usize) -> Option<(Mono, u32)>
    requires { IsFromColumn column k row.now.terms }
    ensures within { IsSome result → k < length row.now.terms }
    ensures bounded { length row.now.terms < 2 ^ 64 }
    ensures term { IfSome result (λ t. entry column (drop k row.now.terms)
        ≡ record { at = t.0; coefficient = t.1 } ∷ entry column (drop (k + 1) row.now.terms)) }
    ensures from { IfSome result (λ _. IsFromColumn column (k + 1) row.now.terms) }
    ensures later { IfSome result (λ _. SameEntriesPast column k (k + 1) row.now.terms) }
    ensures past { IfNone result (IsFromColumn (column + 1) k row.now.terms) }
{
    if k >= row.len() {
        return None;
    }
    let (position, a, coefficient) = row.term(k);
    if position == column as u64 {
        Some((a, coefficient))
    } else {
        None
    }
}
