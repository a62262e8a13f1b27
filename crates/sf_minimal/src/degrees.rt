ghost use Rattle.std.specs.Prelude.{◌≡◌, ◌<◌, ◌↔◌, ◌+ℤ◌, ◌-ℤ◌, pos, length, IfSome, IsNone, IsTrue};
ghost use Rattle.std.specs.List.{AllByRecursion};
ghost use Rattle.sf_algebra.specs.Divisibility.{lcm};
ghost use Rattle.sf_algebra.specs.Monomials.{exponent_sum};
ghost use Rattle.sf_algebra.specs.Rings.{ones};
ghost use Rattle.sf_algebra.specs.Vectors.{Vector, place_degree};
ghost use Rattle.sf_groebner.specs.Criterion.{HaveLeadsAtOnePosition, lcm_place, lead_at};
ghost use Rattle.sf_groebner.specs.ReducedBases.{IsMonic};
ghost use Rattle.sf_groebner.specs.Small.{HasLeadUpTo};
ghost use Rattle.sf_matrix.specs.Bounds.{IsDegree};
ghost use Rattle.sf_minimal.specs.Steps.{HasFreeRow, IsPassedOver, IsPassedOverFor, is_taken};

use crate::facts::matrix_facts;
use sf_matrix::{Matrix, Term};
use sf_mono::Mono;
use sf_reduce::Leads;

/// Whether some row of this degree has no pivot, where the pivots have these leads.
pub(crate) fn has_free_row(m: &Matrix, taken: &Leads, degree: i64) -> bool
    ensures row { IsTrue result ↔ HasFreeRow m.now taken.now degree }
    ensures small { IsTrue result → IsDegree degree }
{
    for i in 0..m.rows() {
        if i64::from(m.row(i).degree()) == degree && !has_pivot(taken, m.rows(), i) {
            return true;
        }
    }
    false
}

/// Whether one of the leads is that of the pivot for row `i` of so many rows.
pub(crate) fn has_pivot(taken: &Leads, rows: usize, i: usize) -> bool
    requires within { i < rows }
    ensures taken { result ≡ is_taken taken.now rows i }
{
    let unit = Term {
        position: (rows - 1 - i) as u64,
        monomial: Mono::one(),
        coefficient: 1,
    };
    match taken.divisor(&unit) {
        None => false,
        Some(_) => true,
    }
}

/// The degree of the S-vector of two rows, which are monic, or `None` exactly where their leads stand at different
/// positions.
pub(crate) fn pair_degree(m: &Matrix, i: usize, j: usize) -> Option<i64>
    requires first { i < length m.now.rows }
    requires second { j < length m.now.rows }
    requires monic { AllByRecursion (λ (v : Vector). IsMonic v.terms) m.now.rows }
    requires low { AllByRecursion (λ (v : Vector). HasLeadUpTo ones 60 v.terms) m.now.rows }
    ensures none { IsNone result ↔ (HaveLeadsAtOnePosition m.now.rows i j → ⊥) }
    ensures degree { IfSome result (λ d. d ≡ place_degree ones m.now.target (lcm_place (lead_at m.now.rows) i j)) }
{
    matrix_facts(m);
    let first = lead_of(m, i);
    let second = lead_of(m, j);
    if first.position != second.position {
        return None;
    }
    let lcm = lead_lcm(m, i, j);
    Some(raised(m.row(i).degree(), first.monomial, lcm))
}

/// The degree of a multiple, by that of a vector with this lead.
fn raised(degree: i32, lead: Mono, multiple: Mono) -> i64
    ensures { result ≡ (degree -ℤ pos (exponent_sum lead)) +ℤ pos (exponent_sum multiple) }
{
    i64::from(degree) - i64::from(lead.sum()) + i64::from(multiple.sum())
}

/// The lead of row `i`, which is monic.
pub(crate) fn lead_of(m: &Matrix, i: usize) -> &Term
    requires within { i < length m.now.rows }
    requires monic { AllByRecursion (λ (v : Vector). IsMonic v.terms) m.now.rows }
    ensures lead { result.now.at ≡ lead_at m.now.rows i }
{
    &m.row(i).terms()[0]
}

/// Whether the pair of two rows, whose leads stand at one position, need not be entered, as pairs of an earlier row give
/// what it gives.
pub(crate) fn is_passed_over(m: &Matrix, i: usize, j: usize) -> bool
    requires earlier { i < j }
    requires later { j < length m.now.rows }
    requires monic { AllByRecursion (λ (v : Vector). IsMonic v.terms) m.now.rows }
    requires low { AllByRecursion (λ (v : Vector). HasLeadUpTo ones 60 v.terms) m.now.rows }
    ensures over { IsTrue result ↔ IsPassedOver m.now.rows i j }
{
    for r in 0..j {
        if is_passed_over_for(m, i, j, r) {
            return true;
        }
    }
    false
}

/// Whether it need not be for row `r`.
fn is_passed_over_for(m: &Matrix, i: usize, j: usize, r: usize) -> bool
    requires first { i < length m.now.rows }
    requires second { j < length m.now.rows }
    requires row { r < length m.now.rows }
    requires monic { AllByRecursion (λ (v : Vector). IsMonic v.terms) m.now.rows }
    requires low { AllByRecursion (λ (v : Vector). HasLeadUpTo ones 60 v.terms) m.now.rows }
    ensures over { IsTrue result ↔ IsPassedOverFor m.now.rows i j r }
{
    let first = lead_of(m, i);
    let row = lead_of(m, r);
    if row.position != first.position {
        return false;
    }
    let lcm = lead_lcm(m, i, j);
    row.monomial.divides(lcm) && (r < i || lead_lcm(m, r, j).sum() < lcm.sum())
}

/// The least common multiple of the monomials of two leads.
fn lead_lcm(m: &Matrix, i: usize, j: usize) -> Mono
    requires first { i < length m.now.rows }
    requires second { j < length m.now.rows }
    requires monic { AllByRecursion (λ (v : Vector). IsMonic v.terms) m.now.rows }
    requires low { AllByRecursion (λ (v : Vector). HasLeadUpTo ones 60 v.terms) m.now.rows }
    ensures lcm { result ≡ lcm (lead_at m.now.rows i).monomial (lead_at m.now.rows j).monomial }
{
    lead_of(m, i).monomial.lcm(lead_of(m, j).monomial)
}
