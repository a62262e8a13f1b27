ghost use Rattle.std.specs.Prelude.{◌≡◌, ◌<◌, ◌≤◌, ◌++◌, ◌+ℤ◌, ◌-ℤ◌, pos, length, OnOk};
ghost use Rattle.std.specs.List.{AllByRecursion};
ghost use Rattle.sf_algebra.specs.Bounds.{GREATEST_SIZE, GREATEST_SUM};
ghost use Rattle.sf_algebra.specs.Divisibility.{lcm};
ghost use Rattle.sf_algebra.specs.Monomials.{exponent_sum};
ghost use Rattle.sf_algebra.specs.Rings.{ones};
ghost use Rattle.sf_algebra.specs.Vectors.{Vector, place_degree};
ghost use Rattle.sf_groebner.specs.Criterion.{lead_at};
ghost use Rattle.sf_groebner.specs.ReducedBases.{IsMonic};
ghost use Rattle.sf_buchberger.specs.GrowthSteps.{PairsFit};
ghost use Rattle.sf_buchberger.specs.QueuedPairs.{pair_with, pairs_with};

use crate::growth::leads::lead_of;
use sf_field::OutOfMemory;
use sf_matrix::{Matrix, Term};
use sf_mono::Mono;
use sf_pairs::PairQueue;

/// Adds the pairs of all rows with the next one, which has this lead and this degree. Only leads at one position make
/// a pair.
pub(crate) fn push_pairs(
    pairs: &mut PairQueue,
    rows: &Matrix,
    lead: &Term,
    degree: i32,
) -> Result<(), OutOfMemory>
    requires few { length rows.now.rows < GREATEST_SIZE }
    requires monic { AllByRecursion (λ (v : Vector). IsMonic v.terms) rows.now.rows }
    requires room { PairsFit rows.now.rows lead.now.at }
    requires degree { degree ≡ place_degree ones rows.now.target lead.now.at }
    ensures ok { OnOk result (pairs.new ≡ pairs.old
        ++ pairs_with ones rows.now.target rows.now.rows lead.now.at (length rows.now.rows) (length rows.now.rows)) }
{
    for i in 0..rows.rows() {
        push_pair(pairs, rows, i, lead, degree)?;
    }
    Ok(())
}

/// Adds the pair of row `i` with the next one, where their leads stand at one position.
fn push_pair(
    pairs: &mut PairQueue,
    rows: &Matrix,
    i: usize,
    lead: &Term,
    degree: i32,
) -> Result<(), OutOfMemory>
    requires within { i < length rows.now.rows }
    requires few { length rows.now.rows < GREATEST_SIZE }
    requires monic { AllByRecursion (λ (v : Vector). IsMonic v.terms) rows.now.rows }
    requires room { exponent_sum (lcm (lead_at rows.now.rows i).monomial lead.now.at.monomial) ≤ GREATEST_SUM }
    requires degree { degree ≡ place_degree ones rows.now.target lead.now.at }
    ensures ok { OnOk result (pairs.new ≡ pairs.old
        ++ pair_with ones rows.now.target rows.now.rows lead.now.at (length rows.now.rows) i) }
{
    let other = lead_of(rows, i);
    if other.position == lead.position {
        let lcm = other.monomial.lcm(lead.monomial);
        let degree = degree_by_lead(degree, lead.monomial, lcm);
        pairs.push(degree, (i as u32, rows.rows() as u32))?;
    }
    Ok(())
}

/// The degree of a multiple, by that of a vector with this lead.
pub(crate) fn degree_by_lead(degree: i32, lead: Mono, multiple: Mono) -> i64
    ensures { result ≡ (degree -ℤ pos (exponent_sum lead)) +ℤ pos (exponent_sum multiple) }
{
    i64::from(degree) - i64::from(lead.sum()) + i64::from(multiple.sum())
}
