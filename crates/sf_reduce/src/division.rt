ghost use Rattle.std.specs.Prelude.{◌≡◌, ◌<◌, length, IfOk};
ghost use Rattle.std.specs.List.{AllByRecursion};
ghost use Rattle.sf_algebra.specs.Matrices.{IsMatrix};
ghost use Rattle.sf_algebra.specs.MatrixOperations.{row_at};
ghost use Rattle.sf_algebra.specs.Primes.{IsPrime};
ghost use Rattle.sf_algebra.specs.Rings.{ones, plain};
ghost use Rattle.sf_algebra.specs.Terms.{IsCanonical, IsNonzeroResidue};
ghost use Rattle.sf_algebra.specs.Vectors.{Vector, IsTermOfDegree, IsVector, place_cmp};
ghost use Rattle.sf_groebner.specs.Criterion.{lead_at};
ghost use Rattle.sf_groebner.specs.Divisions.{IsDivided, IsDivision, left_over, step, tail_of};
ghost use Rattle.sf_groebner.specs.Leads.{PlaceDivides};
ghost use Rattle.sf_groebner.specs.ReducedBases.{IsMonic};
ghost use Rattle.sf_groebner.proofs.Constructions.LeadDivisors.{lead_places};
ghost use Rattle.sf_matrix.specs.Bounds.{DegreeFits};
ghost use Rattle.sf_reduce.specs.TermSums.{sum_vector};

use crate::leads::Leads;
use crate::sum::Sum;
use sf_field::{Modulus, OutOfMemory};
use sf_matrix::{Matrix, Term, Vector};
use std::alloc::Global;

/// The rest and the quotients of a vector divided by the rows of a basis, which are monic.
///
/// The vector is the rest plus the quotients times the basis, and no lead divides a term of the rest. A place greater
/// than all of the vector's is greater than all of the rest's, and than all multiples of leads that are taken away.
pub fn normal_form(
    alloc: Global,
    v: &Vector,
    basis: &Matrix,
) -> Result<(Vector, Vector), OutOfMemory>
    requires vector { IsVector basis.now.ring basis.now.target v.now }
    requires monic { AllByRecursion (λ (w : Vector). IsMonic w.terms) basis.now.rows }
    requires room { DegreeFits basis.now.target v.now.degree }
    ensures division { IfOk result (λ d. IsDivision basis.now.ring basis.now.target basis.now.rows v.now d.0 d.1) }
{
    basis_facts(basis);
    let leads = Leads::of(alloc, basis)?;
    let modulus = basis.modulus();
    let sum = sum_of(alloc, modulus, v)?;
    let (rest, steps) = rest_of(alloc, sum, basis, &leads)?;
    let quotients = Vector::from_terms(alloc, modulus, v.degree(), &steps)?;
    Ok((rest, quotients))
}

/// The rest of a sum divided by the rows of a basis, which are monic, and the steps, one for each multiple of a row
/// that is taken away. `leads` are the leads of the rows.
pub fn rest_of(
    alloc: Global,
    sum: Sum,
    basis: &Matrix,
    leads: &Leads,
) -> Result<(Vector, Vec<Term>), OutOfMemory>
    requires ring { basis.now.ring ≡ plain sum.modulus }
    requires vector { IsVector basis.now.ring basis.now.target (sum_vector sum) }
    requires monic { AllByRecursion (λ (w : Vector). IsMonic w.terms) basis.now.rows }
    requires leads { leads.now ≡ lead_places basis.now.rows }
    requires room { DegreeFits basis.now.target sum.degree }
    ensures degree { IfOk result (λ d. d.0.degree ≡ sum.degree) }
    ensures divided { IfOk result (λ d. IsDivided basis.now.ring basis.now.target basis.now.rows sum.degree sum.terms d.0.terms d.1.items) }
{
    basis_facts(basis);
    let degree = sum.degree();
    let mut left = sum;
    let mut rest = Vec::new(alloc);
    let mut steps = Vec::new(alloc);
    while let Some(first) = left.pop() {
        match leads.divisor(&first) {
            None => {
                rest.push(first)?;
            }
            Some(i) => {
                let step = take_away(alloc, &mut left, basis, i, &first)?;
                steps.push(step)?;
            }
        }
    }
    Ok((Vector::from_canonical(degree, rest), steps))
}

/// Takes away the multiple of row `i` that begins with the term `first`, which isn't in the sum any more. It answers
/// the multiple's coefficient for the row.
fn take_away(
    alloc: Global,
    left: &mut Sum,
    basis: &Matrix,
    i: usize,
    first: &Term,
) -> Result<Term, OutOfMemory>
    requires ring { basis.now.ring ≡ plain left.old.modulus }
    requires row { i < length basis.now.rows }
    requires monic { AllByRecursion (λ (w : Vector). IsMonic w.terms) basis.now.rows }
    requires divides { PlaceDivides (lead_at basis.now.rows i) first.now.at }
    requires residue { IsNonzeroResidue left.old.modulus first.now }
    requires degree { IsTermOfDegree ones basis.now.target left.old.degree first.now }
    requires room { DegreeFits basis.now.target left.old.degree }
    ensures modulus { left.new.modulus ≡ left.old.modulus }
    ensures degree { left.new.degree ≡ left.old.degree }
    ensures left { IfOk result (λ _. left.new.terms ≡ left_over basis.now.ring basis.now.rows i first.now left.old.terms) }
    ensures step { IfOk result (λ s. s ≡ step basis.now.rows i first.now) }
{
    let modulus = basis.modulus();
    modulus.facts();
    let (lead, tail) = lead_and_tail(basis, i);
    let monomial = first.monomial.quotient(lead.monomial);
    let factor = Term {
        position: first.position,
        monomial,
        coefficient: modulus.neg(first.coefficient),
    };
    left.push_multiple(alloc, &factor, tail)?;
    Ok(Term {
        position: i as u64,
        monomial,
        coefficient: first.coefficient,
    })
}

/// The lead of row `i` of a basis, which is monic, and the terms behind it.
pub(crate) fn lead_and_tail(basis: &Matrix, i: usize) -> (&Term, &[Term])
    requires row { i < length basis.now.rows }
    requires monic { AllByRecursion (λ (w : Vector). IsMonic w.terms) basis.now.rows }
    ensures lead { result.0.now.at ≡ lead_at basis.now.rows i }
    ensures tail { result.1.now ≡ tail_of (row_at basis.now.rows i) }
    ensures matrix { IsMatrix basis.now }
{
    let row = basis.row(i).terms();
    let [lead, tail @ ..] = row else {
        unreachable!()
    };
    (lead, tail)
}

/// Does nothing: its contract says what holds of each matrix.
pub(crate) fn basis_facts(basis: &Matrix)
    ensures matrix { IsMatrix basis.now }
    ensures prime { IsPrime basis.now.ring.modulus }
    ensures weights { basis.now.ring ≡ plain basis.now.ring.modulus }
{
    let _rows = basis.rows();
    basis.modulus().facts();
}

/// The sum that a vector is.
pub fn sum_of(alloc: Global, modulus: Modulus, v: &Vector) -> Result<Sum, OutOfMemory>
    requires canonical { IsCanonical (place_cmp ones) modulus v.now.terms }
    ensures sum { IfOk result (λ s. s ≡ record { modulus = modulus; degree = v.now.degree; terms = v.now.terms }) }
{
    modulus.facts();
    let mut sum = Sum::new(alloc, modulus, v.degree());
    sum.push_all(alloc, v.terms())?;
    Ok(sum)
}
