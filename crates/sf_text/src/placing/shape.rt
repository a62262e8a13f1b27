ghost use Rattle.std.specs.Prelude.{◌≡◌, option_copied};
ghost use Rattle.std.specs.List.{list_all};
ghost use Rattle.sf_text.specs.Placed.{has_shape, has_size, is_single_row, first_row};
ghost use Rattle.sf_text.specs.Unknowns.{knows_factor, knows_term, knows_entry, knows_row, first_failing, first_unknown};

use crate::raw::RawTerm;
use sf_matrix::{List, Name};

/// The leftmost variable of the rows that isn't one of the ring's.
pub fn first_unknown<'a>(names: &[Name], rows: &'a [List<List<RawTerm>>]) -> Option<&'a Name>
    ensures { option_copied result ≡ first_unknown names.now rows.now }
{
    let row = row_with_unknown(names, rows)?;
    let entry = entry_with_unknown(names, row.as_slice())?;
    let term = term_with_unknown(names, entry.as_slice())?;
    let (name, _) = unknown_factor(names, term.factors.as_slice())?;
    Some(name)
}

fn row_with_unknown<'a>(
    names: &[Name],
    rows: &'a [List<List<RawTerm>>],
) -> Option<&'a List<List<RawTerm>>>
    ensures { option_copied result ≡ first_failing (knows_row names.now) rows.now }
{
    rows.iter().find(|row| !knows_row(names, row.as_slice()))
}

fn entry_with_unknown<'a>(names: &[Name], row: &'a [List<RawTerm>]) -> Option<&'a List<RawTerm>>
    ensures { option_copied result ≡ first_failing (knows_entry names.now) row.now }
{
    row.iter()
        .find(|entry| !knows_entry(names, entry.as_slice()))
}

fn term_with_unknown<'a>(names: &[Name], entry: &'a [RawTerm]) -> Option<&'a RawTerm>
    ensures { option_copied result ≡ first_failing (knows_term names.now) entry.now }
{
    entry.iter().find(|term| !knows_term(names, term))
}

fn unknown_factor<'a>(names: &[Name], factors: &'a [(Name, u16)]) -> Option<&'a (Name, u16)>
    ensures { option_copied result ≡ first_failing (knows_factor names.now) factors.now }
{
    factors.iter().find(|(name, _)| !names.contains(name))
}

fn knows_row(names: &[Name], row: &[List<RawTerm>]) -> bool
    ensures { result ≡ knows_row names.now row.now }
{
    row.iter().all(|entry| knows_entry(names, entry.as_slice()))
}

fn knows_entry(names: &[Name], entry: &[RawTerm]) -> bool
    ensures { result ≡ knows_entry names.now entry.now }
{
    entry.iter().all(|term| knows_term(names, term))
}

fn knows_term(names: &[Name], term: &RawTerm) -> bool
    ensures { result ≡ knows_term names.now term.now }
{
    knows_factors(names, term.factors.as_slice())
}

fn knows_factors(names: &[Name], factors: &[(Name, u16)]) -> bool
    ensures { result ≡ list_all (knows_factor names.now) factors.now }
{
    factors.iter().all(|(name, _)| names.contains(name))
}

/// Whether each row has an entry for each of the columns.
pub fn has_shape(columns: usize, rows: &[List<List<RawTerm>>]) -> bool
    ensures { result ≡ has_shape columns rows.now }
{
    rows.iter().all(|row| row.len() == columns)
}

/// Whether there are so many rows and columns. Where one of the numbers is 0 no row is written.
pub fn has_size(count: usize, columns: usize, rows: &[List<List<RawTerm>>]) -> bool
    ensures { result ≡ has_size count columns rows.now }
{
    if rows.is_empty() {
        count == 0 || columns == 0
    } else {
        rows.len() == count && has_shape(columns, rows)
    }
}

/// Whether there is one row, with an entry for each of the columns. Over no column it is written as no row.
pub fn is_single_row(columns: usize, rows: &[List<List<RawTerm>>]) -> bool
    ensures { result ≡ is_single_row columns rows.now }
{
    match rows {
        [] => columns == 0,
        [row] => row.len() == columns,
        _ => false,
    }
}

/// The entries of the first row, where there is one.
pub fn first_row(rows: &[List<List<RawTerm>>]) -> &[List<RawTerm>]
    ensures { result.now ≡ first_row rows.now }
{
    match rows.first() {
        None => &[],
        Some(row) => row.as_slice(),
    }
}
