ghost use Rattle.std.specs.Prelude.{◌≡◌, ◌<◌, ◌↔◌, length, map, IfOk, IsTrue, Result};
ghost use Rattle.std.specs.List.{AllByRecursion};
ghost use Rattle.sf_algebra.specs.Matrices.{IsMatrix};
ghost use Rattle.sf_groebner.specs.MinimalGenerators.{matrix_of};
ghost use Rattle.sf_matrix.specs.KeptNumbers.{vector_at};
ghost use Rattle.sf_matrix.specs.Meets.{Meets};
ghost use Rattle.sf_genmor.specs.PresentationPlans.{IsPresentable, generators_plan};
ghost use Rattle.sf_genmor.specs.UnitLeads.{HasFreeRows, HasUnitLead, HaveUnitLeads};

use sf_field::{Copied, OutOfMemory};
use sf_matrix::{BaseFault, Bases, Matrix, Vector};
use std::alloc::Global;

/// The minimal generators of the span of `candidates`, a reduced basis, modulo the span of `base`: those rows that aren't in the
/// span of `base` and the earlier rows.
///
/// The unit vectors of a free module may be more than a table takes, and modulo 0 all are kept.
pub fn minimal_generators<B: Bases>(
    alloc: Global,
    candidates: &Matrix,
    base: &Matrix,
    bases: &mut B,
) -> Result<Matrix, BaseFault>
    requires presentable { IsPresentable (B.table bases.old).limit candidates.now base.now }
    ensures { Meets (B.table bases.old) (generators_plan candidates.now base.now) result (B.table bases.new) }
{
    candidates.modulus().facts();
    if are_free(candidates, base) {
        return Ok(candidates.copy(alloc)?);
    }
    let numbers = bases.minimal(alloc, candidates, base)?;
    Ok(picked(alloc, candidates, &numbers)?)
}

/// The rows with these numbers.
fn picked(alloc: Global, m: &Matrix, numbers: &[usize]) -> Result<Matrix, OutOfMemory>
    requires { AllByRecursion (λ i. i < length m.now.rows) numbers.now }
    ensures { IfOk result (λ p. p ≡ matrix_of m.now.ring m.now.target (map (vector_at m.now.rows) numbers.now)) }
{
    let mut rows = Matrix::new(alloc, m.modulus(), m.target().copy(alloc)?);
    for number in numbers {
        rows.push_row(m.row(*number).copy(alloc)?)?;
    }
    Ok(rows)
}

/// Whether all candidates are kept since there is none, or since they begin with generators and the base has no row.
fn are_free(candidates: &Matrix, base: &Matrix) -> bool
    ensures free { IsTrue result ↔ HasFreeRows candidates.now base.now }
    ensures candidates { IsMatrix candidates.now }
    ensures base { IsMatrix base.now }
{
    let rows = candidates.rows();
    let base_rows = base.rows();
    rows == 0 || (base_rows == 0 && have_unit_leads(candidates))
}

/// Whether each row begins with a generator, without a variable.
fn have_unit_leads(m: &Matrix) -> bool
    ensures { IsTrue result ↔ HaveUnitLeads m.now.rows }
{
    for i in 0..m.rows() {
        if !has_unit_lead(m.row(i)) {
            return false;
        }
    }
    true
}

fn has_unit_lead(v: &Vector) -> bool
    ensures { IsTrue result ↔ HasUnitLead v.now.terms }
{
    match v.terms().first() {
        None => false,
        Some(term) => term.monomial.sum() == 0,
    }
}
