ghost use Rattle.std.specs.Prelude.{◌≡◌, ◌<◌, ◌≤◌, ◌+ℤ◌, pos, [], length, IfOk, IfSome, IsNone, OnOk, ◌↔◌};
ghost use Rattle.std.specs.List.{AllByRecursion};
ghost use Rattle.sf_algebra.specs.Bounds.{GREATEST_SUM};
ghost use Rattle.sf_algebra.specs.Matrices.{degrees_of};
ghost use Rattle.sf_algebra.specs.MatrixOperations.{row_at};
ghost use Rattle.sf_algebra.specs.Monomials.{exponent_sum};
ghost use Rattle.sf_algebra.specs.Rings.{ones, plain};
ghost use Rattle.sf_algebra.specs.Terms.{IsNonzeroResidue};
ghost use Rattle.sf_algebra.specs.VectorOperations.{row_sum, row_multiple};
ghost use Rattle.sf_algebra.specs.Vectors.{Vector, IsTermOfDegree, place_degree};
ghost use Rattle.sf_groebner.specs.Criterion.{s_vector, lcm_place, lead_at, pair_place, HaveLeadsAtOnePosition};
ghost use Rattle.sf_groebner.specs.ReducedBases.{IsMonic};
ghost use Rattle.sf_matrix.specs.Bounds.{DegreeFits, IsDegree};
ghost use Rattle.sf_matrix.specs.Places.{factor_of};
ghost use Rattle.sf_reduce.specs.TermSums.{sum_vector};

use crate::division::{basis_facts, lead_and_tail};
use crate::sum::Sum;
use sf_field::{Modulus, OutOfMemory};
use sf_matrix::{Matrix, Term, Vector};
use sf_mono::Mono;
use std::alloc::Global;

/// The S-vector of rows `i` and `j` of a basis, which are monic, or `None` exactly where their leads stand at
/// different positions.
pub fn s_vector(
    alloc: Global,
    basis: &Matrix,
    i: usize,
    j: usize,
) -> Result<Option<Vector>, OutOfMemory>
    requires first { i < length basis.now.rows }
    requires second { j < length basis.now.rows }
    requires monic { AllByRecursion (λ (v : Vector). IsMonic v.terms) basis.now.rows }
    requires degree { IsDegree (place_degree ones basis.now.target (lcm_place (lead_at basis.now.rows) i j)) }
    requires room { DegreeFits basis.now.target (place_degree ones basis.now.target (lcm_place (lead_at basis.now.rows) i j)) }
    ensures none { IfOk result (λ v. IsNone v ↔ (HaveLeadsAtOnePosition basis.now.rows i j → ⊥)) }
    ensures vector { IfOk result (λ v. IfSome v (λ s. s ≡ record {
      degree = place_degree ones basis.now.target (lcm_place (lead_at basis.now.rows) i j);
      terms = s_vector basis.now.ring basis.now.rows i j;
    })) }
{
    let (first, _) = lead_and_tail(basis, i);
    let (second, _) = lead_and_tail(basis, j);
    if first.position != second.position {
        return Ok(None);
    }
    let sum = s_sum(alloc, basis, i, j)?;
    Ok(Some(sum.into_vector(alloc)?))
}

/// The same as a sum, of rows whose leads stand at one position.
pub fn s_sum(alloc: Global, basis: &Matrix, i: usize, j: usize) -> Result<Sum, OutOfMemory>
    requires first { i < length basis.now.rows }
    requires second { j < length basis.now.rows }
    requires monic { AllByRecursion (λ (v : Vector). IsMonic v.terms) basis.now.rows }
    requires positions { HaveLeadsAtOnePosition basis.now.rows i j }
    requires degree { IsDegree (place_degree ones basis.now.target (lcm_place (lead_at basis.now.rows) i j)) }
    requires room { DegreeFits basis.now.target (place_degree ones basis.now.target (lcm_place (lead_at basis.now.rows) i j)) }
    ensures modulus { IfOk result (λ s. basis.now.ring ≡ plain s.modulus) }
    ensures sum { IfOk result (λ s. sum_vector s ≡ record {
      degree = place_degree ones basis.now.target (lcm_place (lead_at basis.now.rows) i j);
      terms = s_vector basis.now.ring basis.now.rows i j;
    }) }
{
    basis_facts(basis);
    let modulus = basis.modulus();
    modulus.facts();
    let first = pair_coefficient(basis, i, j, 1);
    let second = pair_coefficient(basis, j, i, modulus.neg(1));
    let mut sum = zero_of_degree(alloc, modulus, basis, &first);
    push_row(alloc, &mut sum, basis, &first)?;
    push_row(alloc, &mut sum, basis, &second)?;
    Ok(sum)
}

/// The sum of no terms, of the degree of a coefficient.
fn zero_of_degree(alloc: Global, modulus: Modulus, basis: &Matrix, coefficient: &Term) -> Sum
    requires row { coefficient.now.at.position < length basis.now.rows }
    requires degree { IsDegree (place_degree ones (degrees_of basis.now.rows) coefficient.now.at) }
    ensures { result ≡ record { modulus = modulus; degree = place_degree ones (degrees_of basis.now.rows) coefficient.now.at; terms = [] } }
{
    let row = basis.row(coefficient.position as usize);
    Sum::new(
        alloc,
        modulus,
        degree_of_multiple(row.degree(), coefficient.monomial),
    )
}

/// The coefficient for row `i` whose multiple of its lead stands at the least common multiple of the leads of rows
/// `i` and `j`.
fn pair_coefficient(basis: &Matrix, i: usize, j: usize, coefficient: u32) -> Term
    requires first { i < length basis.now.rows }
    requires second { j < length basis.now.rows }
    requires monic { AllByRecursion (λ (v : Vector). IsMonic v.terms) basis.now.rows }
    requires fits { exponent_sum (lcm_place (lead_at basis.now.rows) i j).monomial ≤ GREATEST_SUM }
    ensures { result ≡ record { at = pair_place (lead_at basis.now.rows) i j; coefficient = coefficient } }
{
    let (first, _) = lead_and_tail(basis, i);
    let (second, _) = lead_and_tail(basis, j);
    Term {
        position: i as u64,
        monomial: first.monomial.lcm(second.monomial).quotient(first.monomial),
        coefficient,
    }
}

/// The degree of a vector's multiple: its own, and the monomial's sum of exponents.
fn degree_of_multiple(degree: i32, a: Mono) -> i32
    requires { IsDegree (degree +ℤ pos (exponent_sum a)) }
    ensures { result ≡ degree +ℤ pos (exponent_sum a) }
{
    degree + a.sum() as i32
}

/// Adds the multiple of the row for which a coefficient stands.
fn push_row(
    alloc: Global,
    sum: &mut Sum,
    basis: &Matrix,
    coefficient: &Term,
) -> Result<(), OutOfMemory>
    requires ring { basis.now.ring ≡ plain sum.old.modulus }
    requires monic { AllByRecursion (λ (v : Vector). IsMonic v.terms) basis.now.rows }
    requires residue { IsNonzeroResidue sum.old.modulus coefficient.now }
    requires degree { IsTermOfDegree ones (degrees_of basis.now.rows) sum.old.degree coefficient.now }
    requires room { DegreeFits basis.now.target sum.old.degree }
    ensures modulus { sum.new.modulus ≡ sum.old.modulus }
    ensures degree { sum.new.degree ≡ sum.old.degree }
    ensures sum { OnOk result (sum.new.terms ≡ row_sum (plain sum.old.modulus) sum.old.terms
        (row_multiple (plain sum.old.modulus) (factor_of coefficient.now) (row_at basis.now.rows coefficient.now.at.position))) }
{
    basis_facts(basis);
    let row = basis.row(coefficient.position as usize);
    sum.push_multiple(alloc, coefficient, row.terms())?;
    Ok(())
}
