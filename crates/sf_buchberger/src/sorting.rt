ghost use Rattle.std.specs.Prelude.{◌≡◌, ◌∷◌, ◌++◌, ◌≤◌, length, take, drop, IfOk};
ghost use Rattle.sf_algebra.specs.Rings.{ones};
ghost use Rattle.sf_groebner.specs.ReducedBases.{row_cmp, lead_cmp};
ghost use Rattle.sf_groebner.proofs.Constructions.SortedRows.{insert_row, sort_rows};

use sf_field::OutOfMemory;
use sf_matrix::{Term, Vector};
use std::alloc::Global;
use std::cmp::Ordering;

/// Rows in order: a smaller degree first, and in one degree a greater lead first.
///
/// The last row is inserted first, so that each of rows that come by ascending degree goes near the front.
pub(crate) fn sorted_rows(alloc: Global, mut rows: Vec<Vector>) -> Result<Vec<Vector>, OutOfMemory>
    ensures sorted { IfOk result (λ s. s.items ≡ sort_rows ones rows.items) }
{
    let mut sorted = Vec::with_capacity(alloc, rows.len())?;
    while let Some(row) = rows.pop() {
        let place = place_of(&sorted, &row);
        sorted.insert(place, row)?;
    }
    Ok(sorted)
}

/// Where a row goes among sorted rows: before the first that isn't before it.
fn place_of(sorted: &[Vector], row: &Vector) -> usize
    ensures within { result ≤ length sorted.now }
    ensures place { take result sorted.now ++ row.now ∷ drop result sorted.now ≡ insert_row ones row.now sorted.now }
{
    for (place, other) in sorted.iter().enumerate() {
        if row_order(row, other) != Ordering::Greater {
            return place;
        }
    }
    sorted.len()
}

/// Compares rows: by their degrees, and in one degree by their leads, the greater one first.
pub(crate) fn row_order(v: &Vector, w: &Vector) -> Ordering
    ensures { result ≡ row_cmp ones v.now w.now }
{
    match v.degree().cmp(&w.degree()) {
        Ordering::Equal => lead_order(w.terms(), v.terms()),
        unequal => unequal,
    }
}

/// Compares the leads of two lists, where both have one.
fn lead_order(left: &[Term], right: &[Term]) -> Ordering
    ensures { result ≡ lead_cmp ones left.now right.now }
{
    match (left, right) {
        ([t, ..], [u, ..]) => t.cmp_place(u),
        _ => Ordering::Equal,
    }
}
