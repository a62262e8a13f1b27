ghost use Rattle.std.specs.Prelude.{◌≡◌, ◌≤◌, ◌++◌, length, map, IfOk, IfSome, OnOk, SomeIff, IsTrue};
ghost use Rattle.std.specs.List.{AllByRecursion, list_all};
ghost use Rattle.std.specs.Ordering.{int_eq};
ghost use Rattle.sf_algebra.specs.Rings.{plain, ones};
ghost use Rattle.sf_algebra.specs.Vectors.{IsVector, generator_degree, place_degree, row_degree};
ghost use Rattle.sf_text.specs.Placed.{IsWrittenTerm, placed_term, placed_terms, row_vector, row_of_degree, is_homogeneous, is_written_degree};

use super::term::placed_term;
use crate::raw::RawTerm;
use crate::ring::Ring;
use sf_field::OutOfMemory;
use sf_matrix::{List, Term, Vector, sum_of_terms};
use std::alloc::Global;

/// The vector that a row means, or `None` where it isn't homogeneous.
pub fn place_row(
    alloc: Global,
    ring: &Ring,
    degrees: &[i32],
    entries: &[List<RawTerm>],
) -> Result<Option<Vector>, OutOfMemory>
    requires few { length ring.now.names ≤ 6 }
    requires shaped { length entries.now ≡ length degrees.now }
    requires written { IsTrue (list_all is_written_degree degrees.now) }
    ensures value { IfOk result (λ r.
        SomeIff r (IsTrue (is_homogeneous degrees.now (row_vector ring.now degrees.now entries.now))) (row_vector ring.now degrees.now entries.now)) }
    ensures vector { IfOk result (λ r. IfSome r (IsVector (plain ring.now.modulus) degrees.now)) }
    ensures small { IfOk result (λ r. IfSome r (λ v. AllByRecursion IsWrittenTerm v.terms)) }
{
    let terms = placed_terms(alloc, ring, entries)?;
    let terms = sum_of_terms(alloc, ring.modulus, &terms)?;
    let degree = row_degree(degrees, &terms);
    if have_degree(degrees, degree, &terms) {
        Ok(Some(Vector::from_canonical(degree, terms)))
    } else {
        Ok(None)
    }
}

/// The vector of this degree that a row means, or `None` where it isn't homogeneous of it.
pub fn place_row_of_degree(
    alloc: Global,
    ring: &Ring,
    degrees: &[i32],
    degree: i32,
    entries: &[List<RawTerm>],
) -> Result<Option<Vector>, OutOfMemory>
    requires few { length ring.now.names ≤ 6 }
    requires shaped { length entries.now ≡ length degrees.now }
    requires written { IsTrue (list_all is_written_degree degrees.now) }
    ensures value { IfOk result (λ r.
        SomeIff r (IsTrue (is_homogeneous degrees.now (row_of_degree ring.now degree entries.now))) (row_of_degree ring.now degree entries.now)) }
    ensures vector { IfOk result (λ r. IfSome r (IsVector (plain ring.now.modulus) degrees.now)) }
    ensures small { IfOk result (λ r. IfSome r (λ v. AllByRecursion IsWrittenTerm v.terms)) }
{
    let terms = placed_terms(alloc, ring, entries)?;
    let terms = sum_of_terms(alloc, ring.modulus, &terms)?;
    if have_degree(degrees, degree, &terms) {
        Ok(Some(Vector::from_canonical(degree, terms)))
    } else {
        Ok(None)
    }
}

/// The terms of a row's entries, each at its column.
fn placed_terms(
    alloc: Global,
    ring: &Ring,
    entries: &[List<RawTerm>],
) -> Result<Vec<Term>, OutOfMemory>
    requires few { length ring.now.names ≤ 6 }
    ensures terms { IfOk result (λ v. v.items ≡ placed_terms ring.now 0 entries.now) }
    ensures small { IfOk result (λ v. AllByRecursion IsWrittenTerm v.items) }
{
    let mut terms = Vec::new(alloc);
    for (column, entry) in entries.iter().enumerate() {
        push_entry(&mut terms, ring, column as u64, entry.as_slice())?;
    }
    Ok(terms)
}

fn push_entry(
    terms: &mut Vec<Term>,
    ring: &Ring,
    column: u64,
    entry: &[RawTerm],
) -> Result<(), OutOfMemory>
    requires few { length ring.now.names ≤ 6 }
    ensures terms { OnOk result (terms.new.items ≡ terms.old.items ++ map (placed_term ring.now column) entry.now) }
    ensures small { AllByRecursion IsWrittenTerm terms.old.items → AllByRecursion IsWrittenTerm terms.new.items }
{
    for term in entry {
        terms.push(placed_term(ring, column, term))?;
    }
    Ok(())
}

/// The degree of a row, that of its greatest term, and 0 where there is none.
fn row_degree(degrees: &[i32], terms: &[Term]) -> i32
    requires written { IsTrue (list_all is_written_degree degrees.now) }
    ensures { result ≡ row_degree ones degrees.now terms.now }
{
    match terms.first() {
        None => 0,
        Some(term) => term_degree(degrees, term),
    }
}

/// Whether all terms have this degree.
fn have_degree(degrees: &[i32], degree: i32, terms: &[Term]) -> bool
    requires written { IsTrue (list_all is_written_degree degrees.now) }
    ensures { result ≡ list_all (λ t. int_eq (place_degree ones degrees.now t.at) degree) terms.now }
{
    terms
        .iter()
        .all(|term| term_degree(degrees, term) == degree)
}

/// The degree of a term: that of its generator and the sum of its exponents.
fn term_degree(degrees: &[i32], term: &Term) -> i32
    requires written { IsTrue (list_all is_written_degree degrees.now) }
    ensures { result ≡ place_degree ones degrees.now term.now.at }
{
    generator_degree(degrees, term.position as usize) + term.monomial.sum() as i32
}

/// The degree of a generator, and 0 where there is none at this position.
fn generator_degree(degrees: &[i32], position: usize) -> i32
    requires written { IsTrue (list_all is_written_degree degrees.now) }
    ensures degree { result ≡ generator_degree degrees.now position }
    ensures written { IsTrue (is_written_degree result) }
{
    degrees.get(position).copied().unwrap_or(0)
}
