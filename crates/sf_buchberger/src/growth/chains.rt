ghost use Rattle.std.specs.Prelude.{◌<◌, ◌≡◌, ◌≤◌, ◌↔◌, length, IsTrue};
ghost use Rattle.std.specs.List.{AllByRecursion};
ghost use Rattle.sf_algebra.specs.Bounds.{GREATEST_SUM};
ghost use Rattle.sf_algebra.specs.Monomials.{exponent_sum};
ghost use Rattle.sf_algebra.specs.Vectors.{Vector};
ghost use Rattle.sf_groebner.specs.Criterion.{lead_at, lcm_place};
ghost use Rattle.sf_groebner.specs.Leads.{PlaceDivides};
ghost use Rattle.sf_groebner.specs.ReducedBases.{IsMonic};
ghost use Rattle.sf_buchberger.specs.DonePairs.{IsChained, IsLink};

use crate::growth::done::Done;
use crate::growth::leads::lead_of;
use sf_matrix::{Matrix, Term};
use sf_mono::Mono;

/// Whether the lead of a row divides the least common multiple of a pair, whose pairs with that row are done.
pub(crate) fn is_chained(rows: &Matrix, done: &Done, i: usize, j: usize) -> bool
    requires first { i < length rows.now.rows }
    requires second { j < length rows.now.rows }
    requires monic { AllByRecursion (λ (v : Vector). IsMonic v.terms) rows.now.rows }
    requires room { exponent_sum (lcm_place (lead_at rows.now.rows) i j).monomial ≤ GREATEST_SUM }
    ensures { IsTrue result ↔ IsChained rows.now.rows done.now i j }
{
    let position = lead_of(rows, i).position;
    let lcm = lead_of(rows, i).monomial.lcm(lead_of(rows, j).monomial);
    for k in 0..rows.rows() {
        if done.has(i, k) && done.has(k, j) && divides(lead_of(rows, k), position, lcm) {
            return true;
        }
    }
    false
}

/// Whether a lead stands at this position and divides a monomial.
fn divides(lead: &Term, position: u64, multiple: Mono) -> bool
    ensures { IsTrue result ↔ PlaceDivides lead.now.at (record { position = position; monomial = multiple }) }
{
    lead.position == position && lead.monomial.divides(multiple)
}
