ghost use Rattle.std.specs.Prelude.{◌≡◌, IfOk};
ghost use Rattle.std.specs.List.{AllByRecursion};
ghost use Rattle.sf_algebra.specs.Rings.{plain};
ghost use Rattle.sf_algebra.specs.Vectors.{Vector, IsVector};
ghost use Rattle.sf_groebner.specs.Divisions.{tail_of};
ghost use Rattle.sf_groebner.specs.ReducedBases.{IsMonic};
ghost use Rattle.sf_groebner.proofs.Constructions.LeadDivisors.{lead_places};
ghost use Rattle.sf_groebner.proofs.Constructions.Tails.{HasReducedTail, HaveReducedTails};
ghost use Rattle.sf_matrix.specs.Bounds.{DegreeFits};
ghost use Rattle.sf_reduce.specs.TermSums.{sum_vector};
ghost use Rattle.sf_buchberger.specs.Tails.{IsRestOfTail};

use sf_field::OutOfMemory;
use sf_matrix::{Matrix, Vector};
use sf_reduce::{Leads, Sum, rest_of};
use std::alloc::Global;

/// Monic rows, each with the rest of its tail divided by all of them behind its lead.
pub(crate) fn reduced_rows(alloc: Global, rows: &Matrix) -> Result<Vec<Vector>, OutOfMemory>
    requires monic { AllByRecursion (λ (v : Vector). IsMonic v.terms) rows.now.rows }
    requires room { AllByRecursion (λ (v : Vector). DegreeFits rows.now.target v.degree) rows.now.rows }
    ensures tails { IfOk result (λ r. HaveReducedTails rows.now.ring rows.now.target rows.now.rows rows.now.rows r.items) }
{
    let leads = Leads::of(alloc, rows)?;
    let mut reduced = Vec::with_capacity(alloc, rows.rows())?;
    for i in 0..rows.rows() {
        reduced.push(reduced_row(alloc, rows, &leads, rows.row(i))?)?;
    }
    Ok(reduced)
}

/// A monic vector with the rest of its tail divided by the rows behind its lead. `leads` are the leads of the rows.
fn reduced_row(
    alloc: Global,
    rows: &Matrix,
    leads: &Leads,
    v: &Vector,
) -> Result<Vector, OutOfMemory>
    requires monic { AllByRecursion (λ (w : Vector). IsMonic w.terms) rows.now.rows }
    requires leads { leads.now ≡ lead_places rows.now.rows }
    requires vector { IsVector rows.now.ring rows.now.target v.now }
    requires lead { IsMonic v.now.terms }
    requires room { DegreeFits rows.now.target v.now.degree }
    ensures tail { IfOk result (λ w. HasReducedTail rows.now.ring rows.now.target rows.now.rows v.now w) }
{
    rows.modulus().facts();
    let rest = rest_of_tail(alloc, rows, leads, v)?;
    let mut terms = Vec::with_capacity(alloc, 1)?;
    terms.extend_from_slice(&v.terms()[..1])?;
    terms.extend_from_slice(rest.terms())?;
    Ok(Vector::from_canonical(v.degree(), terms))
}

/// The rest of the tail of a monic vector divided by the rows.
fn rest_of_tail(
    alloc: Global,
    rows: &Matrix,
    leads: &Leads,
    v: &Vector,
) -> Result<Vector, OutOfMemory>
    requires monic { AllByRecursion (λ (w : Vector). IsMonic w.terms) rows.now.rows }
    requires leads { leads.now ≡ lead_places rows.now.rows }
    requires vector { IsVector rows.now.ring rows.now.target v.now }
    requires lead { IsMonic v.now.terms }
    requires room { DegreeFits rows.now.target v.now.degree }
    ensures rest { IfOk result (λ r. IsRestOfTail rows.now v.now r.terms) }
{
    let tail = tail_sum(alloc, rows, v)?;
    let (rest, _steps) = rest_of(alloc, tail, rows, leads)?;
    Ok(rest)
}

/// The tail of a monic vector over the target of a matrix, as a sum.
fn tail_sum(alloc: Global, rows: &Matrix, v: &Vector) -> Result<Sum, OutOfMemory>
    requires vector { IsVector rows.now.ring rows.now.target v.now }
    requires lead { IsMonic v.now.terms }
    ensures ring { IfOk result (λ s. rows.now.ring ≡ plain s.modulus) }
    ensures tail { IfOk result (λ s. sum_vector s ≡ record { degree = v.now.degree; terms = tail_of v.now.terms }) }
{
    let modulus = rows.modulus();
    modulus.facts();
    let mut tail = Sum::new(alloc, modulus, v.degree());
    tail.push_all(alloc, &v.terms()[1..])?;
    Ok(tail)
}
