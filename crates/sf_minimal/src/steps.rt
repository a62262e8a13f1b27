ghost use Rattle.std.specs.Prelude.{◌≡◌, ◌<◌, length, IfOk, OnOk};
ghost use Rattle.std.specs.List.{AllByRecursion};
ghost use Rattle.sf_groebner.specs.Spans.{InSpan};
ghost use Rattle.sf_groebner.proofs.Constructions.LeadDivisors.{lead_places};
ghost use Rattle.sf_matrix.specs.KeptNumbers.{SpansInto};
ghost use Rattle.sf_minimal.specs.Numbers.{DecideRows};
ghost use Rattle.sf_minimal.specs.Pivots.{ArePivots};
ghost use Rattle.sf_minimal.specs.Spaces.{IsSpace};
ghost use Rattle.sf_minimal.specs.Steps.{HasRowOfDegree, IsLowBasis, IsPairStep, IsRowStep, IsStep};

use crate::constants::constants_of;
use crate::degrees::{has_free_row, is_passed_over, pair_degree};
use crate::facts::matrix_facts;
use crate::pivots::{enter_constants, no_pivots};
use crate::quotients::quotients_of;
use crate::spaces::Space;
use sf_field::OutOfMemory;
use sf_matrix::{Matrix, Vector};
use sf_reduce::{Leads, s_sum};
use std::alloc::Global;

/// Divides a vector of the span by the rows, and enters the constant terms of the quotients.
fn enter(
    alloc: Global,
    cands: &Matrix,
    leads: &Leads,
    spaces: &mut Vec<Space>,
    v: &Vector,
    pivots: &mut Matrix,
    taken: &mut Leads,
) -> Result<(), OutOfMemory>
    requires basis { IsLowBasis cands.now }
    requires leads { leads.now ≡ lead_places cands.now.rows }
    requires spaces { AllByRecursion (IsSpace cands.now) spaces.old.items }
    requires inside { InSpan cands.now v.now }
    requires degree { HasRowOfDegree cands.now v.now.degree }
    requires pivots { ArePivots pivots.old }
    requires taken { taken.old ≡ lead_places pivots.old.rows }
    requires pivots_ring { pivots.old.ring ≡ cands.now.ring }
    requires columns { length pivots.old.target ≡ length cands.now.rows }
    ensures step { OnOk result (IsStep cands.now pivots.old pivots.new v.now.degree v.now.terms) }
    ensures taken { OnOk result (taken.new ≡ lead_places pivots.new.rows) }
    ensures spaces { OnOk result (AllByRecursion (IsSpace cands.now) spaces.new.items) }
{
    matrix_facts(cands);
    let quotients = quotients_of(alloc, cands, leads, spaces, v)?;
    let constants = constants_of(alloc, cands.modulus(), cands.rows(), &quotients)?;
    enter_constants(alloc, pivots, taken, &constants)?;
    Ok(())
}

/// Does so with a row of the other matrix, unless each row of its degree has a pivot: constant quotients stand at those
/// alone.
fn enter_row(
    alloc: Global,
    cands: &Matrix,
    leads: &Leads,
    spaces: &mut Vec<Space>,
    row: &Vector,
    pivots: &mut Matrix,
    taken: &mut Leads,
) -> Result<(), OutOfMemory>
    requires basis { IsLowBasis cands.now }
    requires leads { leads.now ≡ lead_places cands.now.rows }
    requires spaces { AllByRecursion (IsSpace cands.now) spaces.old.items }
    requires inside { InSpan cands.now row.now }
    requires pivots { ArePivots pivots.old }
    requires taken { taken.old ≡ lead_places pivots.old.rows }
    requires pivots_ring { pivots.old.ring ≡ cands.now.ring }
    requires columns { length pivots.old.target ≡ length cands.now.rows }
    ensures step { OnOk result (IsRowStep cands.now pivots.old pivots.new row.now) }
    ensures taken { OnOk result (taken.new ≡ lead_places pivots.new.rows) }
    ensures spaces { OnOk result (AllByRecursion (IsSpace cands.now) spaces.new.items) }
{
    matrix_facts(cands);
    if !has_free_row(cands, taken, i64::from(row.degree())) {
        return Ok(());
    }
    enter(alloc, cands, leads, spaces, row, pivots, taken)?;
    Ok(())
}

/// Does so with the S-vector of two rows, unless each row of its degree has a pivot, or others give what it gives.
fn enter_pair(
    alloc: Global,
    cands: &Matrix,
    leads: &Leads,
    spaces: &mut Vec<Space>,
    i: usize,
    j: usize,
    pivots: &mut Matrix,
    taken: &mut Leads,
) -> Result<(), OutOfMemory>
    requires basis { IsLowBasis cands.now }
    requires leads { leads.now ≡ lead_places cands.now.rows }
    requires spaces { AllByRecursion (IsSpace cands.now) spaces.old.items }
    requires first { i < j }
    requires second { j < length cands.now.rows }
    requires pivots { ArePivots pivots.old }
    requires taken { taken.old ≡ lead_places pivots.old.rows }
    requires pivots_ring { pivots.old.ring ≡ cands.now.ring }
    requires columns { length pivots.old.target ≡ length cands.now.rows }
    ensures step { OnOk result (IsPairStep cands.now i j pivots.old pivots.new) }
    ensures taken { OnOk result (taken.new ≡ lead_places pivots.new.rows) }
    ensures spaces { OnOk result (AllByRecursion (IsSpace cands.now) spaces.new.items) }
{
    matrix_facts(cands);
    let Some(degree) = pair_degree(cands, i, j) else {
        return Ok(());
    };
    if !has_free_row(cands, taken, degree) {
        return Ok(());
    }
    if is_passed_over(cands, i, j) {
        return Ok(());
    }
    let v = s_sum(alloc, cands, i, j)?.into_vector(alloc)?;
    enter(alloc, cands, leads, spaces, &v, pivots, taken)?;
    Ok(())
}

/// The pivots of the constant terms of all coefficients by which the rows of `cands` give vectors of the span of
/// `base`.
pub(crate) fn pivots_of(alloc: Global, cands: &Matrix, base: &Matrix) -> Result<Matrix, OutOfMemory>
    requires basis { IsLowBasis cands.now }
    requires ring { base.now.ring ≡ cands.now.ring }
    requires target { base.now.target ≡ cands.now.target }
    requires inside { SpansInto base.now cands.now }
    ensures pivots { IfOk result ArePivots }
    ensures decide { IfOk result (λ e. DecideRows cands.now (InSpan base.now) e.rows) }
{
    matrix_facts(cands);
    matrix_facts(base);
    let leads = Leads::of(alloc, cands)?;
    let mut pivots = no_pivots(alloc, cands)?;
    let mut taken = Leads::new(alloc);
    let mut spaces = Vec::new(alloc);
    for l in 0..base.rows() {
        enter_row(
            alloc,
            cands,
            &leads,
            &mut spaces,
            base.row(l),
            &mut pivots,
            &mut taken,
        )?;
    }
    for j in 0..cands.rows() {
        for i in 0..j {
            enter_pair(
                alloc,
                cands,
                &leads,
                &mut spaces,
                i,
                j,
                &mut pivots,
                &mut taken,
            )?;
        }
    }
    matrix_facts(&pivots);
    Ok(pivots)
}
