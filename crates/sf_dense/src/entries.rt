ghost use Rattle.std.specs.Prelude.{◌≡◌, ◌+◌, ◌<◌, ◌≤◌, ℕ, length, map, IfOk, IfSome, IsSome, Some};
ghost use Rattle.std.specs.List.{AllByRecursion};
ghost use Rattle.sf_algebra.specs.Multiples.{place_product};
ghost use Rattle.sf_algebra.specs.Rings.{ones};
ghost use Rattle.sf_algebra.specs.Terms.{IsDescending};
ghost use Rattle.sf_algebra.specs.Vectors.{place_cmp};
ghost use Rattle.sf_variables.specs.Columns.{AreFalling};
ghost use Rattle.sf_dense.specs.Entries.{column_at, placed};
ghost use Rattle.sf_dense.specs.MonicEntries.{AreWithin};
ghost use Rattle.sf_dense.specs.Walks.{times_monomial, HasEntry, IsFrom};

use crate::place::Place;
use sf_field::OutOfMemory;
use sf_matrix::Term;
use sf_mono::Mono;
use std::alloc::Global;
use std::cmp::Ordering;
use std::marker::Model;

/// The greatest sum of the exponents of a monomial.
const GREATEST_SUM: u32 = 65_535;

/// The number of a place in a list, counted from 0, and a coefficient, a residue below 65,536.
#[derive(Clone, Copy, Debug, PartialEq, Eq)]
pub struct Entry {
    pub cell: u32,
    pub coefficient: u16,
}

impl Model for Entry {
    ghost use Rattle.sf_dense.specs.Entries.{Entry};

    ghost Value = { Entry };

    ghost view = { λ e. record { cell = e.cell; coefficient = e.coefficient } };

    ghost inverse = { λ e. record { cell = e.cell; coefficient = e.coefficient } };
}

/// The entries of the multiple of some terms by a monomial, by one walk along both lists: the terms descend, and the
/// places fall.
///
/// `None` where one of its places isn't among the columns, where a sum of exponents would pass 65,535, or where a
/// coefficient or the number of a place doesn't fit an entry.
pub fn multiple_entries(
    alloc: Global,
    columns: &[Place],
    terms: &[Term],
    factor: Mono,
) -> Result<Option<Vec<Entry>>, OutOfMemory>
    ensures entries { IfOk result (λ found. IfSome found (λ es. placed columns.now es.items ≡ map (times_monomial factor) terms.now)) }
    ensures within { IfOk result (λ found. IfSome found (λ es. AreWithin (length columns.now) es.items)) }
    ensures found { IfOk result (λ found. AreFalling ones columns.now → IsDescending (place_cmp ones) terms.now → AllByRecursion (HasEntry columns.now factor) terms.now → IsSome found) }
{
    let mut entries = Vec::with_capacity(alloc, terms.len())?;
    let mut from = 0;
    for term in terms {
        let Some(entry) = multiple_entry(columns, from, term, factor) else {
            return Ok(None);
        };
        entries.push(entry)?;
        from = entry.cell as usize + 1;
    }
    Ok(Some(entries))
}

/// The entry of a term times a monomial, whose place is looked for from a number on.
#[inline]
fn multiple_entry(columns: &[Place], from: usize, term: &Term, factor: Mono) -> Option<Entry>
    ensures place { IfSome result (λ e. column_at columns.now e.cell ≡ place_product factor term.now.at) }
    ensures coefficient { IfSome result (λ e. e.coefficient ≡ term.now.coefficient) }
    ensures within { IfSome result (λ e. e.cell < length columns.now) }
    ensures found { AreFalling ones columns.now → HasEntry columns.now factor term.now → IsFrom columns.now factor from term.now → IsSome result }
{
    if factor.sum() + term.monomial.sum() > GREATEST_SUM || term.coefficient > u16::MAX as u32 {
        return None;
    }
    let place = Place {
        monomial: factor.mul(term.monomial),
        position: term.position,
    };
    let cell = place_from(columns, from, place)?;
    if cell > u32::MAX as usize {
        return None;
    }
    Some(Entry {
        cell: cell as u32,
        coefficient: term.coefficient as u16,
    })
}

/// How two places compare: an earlier generator is greater, and at one generator the monomials decide.
#[inline]
fn compared(a: &Place, b: &Place) -> Ordering
    ensures { result ≡ place_cmp ones a.now b.now }
{
    match b.position.cmp(&a.position) {
        Ordering::Equal => a.monomial.cmp(&b.monomial),
        unequal => unequal,
    }
}

/// The number of a place in a falling list, from a number on.
///
/// The steps double until the place is passed, and then halve: so a near one is found at once, and a far one soon.
fn place_from(columns: &[Place], from: usize, place: Place) -> Option<usize>
    ensures place { IfSome result (λ i. column_at columns.now i ≡ place) }
    ensures within { IfSome result (λ i. i < length columns.now) }
    ensures found { AreFalling ones columns.now → (i : ℕ) → from ≤ i → i < length columns.now → column_at columns.now i ≡ place → result ≡ Some i }
{
    let mut low = from;
    let mut high = columns.len();
    while low < high {
        let probe = low + (low - from).min((high - low) / 2);
        match compared(&columns[probe], &place) {
            Ordering::Equal => return Some(probe),
            Ordering::Greater => low = probe + 1,
            Ordering::Less => high = probe,
        }
    }
    None
}

/// The terms that entries stand for.
pub fn terms_of(
    alloc: Global,
    columns: &[Place],
    entries: &[Entry],
) -> Result<Vec<Term>, OutOfMemory>
    requires within { AreWithin (length columns.now) entries.now }
    ensures terms { IfOk result (λ ts. ts.items ≡ placed columns.now entries.now) }
{
    let mut terms = Vec::with_capacity(alloc, entries.len())?;
    for entry in entries {
        let place = &columns[entry.cell as usize];
        terms.push(Term {
            monomial: place.monomial,
            position: place.position,
            coefficient: entry.coefficient as u32,
        })?;
    }
    Ok(terms)
}
