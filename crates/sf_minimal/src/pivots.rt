ghost use Rattle.std.specs.Prelude.{◌≡◌, [], ◌∷◌, length, replicate, pos, IfOk, MatchOption, OnOk};
ghost use Rattle.sf_algebra.specs.Vectors.{IsVector};
ghost use Rattle.sf_groebner.specs.Divisions.{tail_of};
ghost use Rattle.sf_groebner.proofs.Constructions.LeadDivisors.{lead_places};
ghost use Rattle.sf_minimal.specs.Pivots.{ArePivots, IsEntered, IsMonicMultiple};

use crate::facts::matrix_facts;
use sf_field::OutOfMemory;
use sf_matrix::{Free, List, Matrix, Term, Vector};
use sf_mono::Mono;
use sf_reduce::{Leads, normal_form};
use std::alloc::Global;

/// No pivots yet, for the rows of a matrix.
pub(crate) fn no_pivots(alloc: Global, m: &Matrix) -> Result<Matrix, OutOfMemory>
    ensures none { IfOk result (λ e. e ≡ record { ring = m.now.ring; target = replicate (length m.now.rows) (pos 0); rows = [] }) }
{
    let degrees = List::from_vec(vec![in alloc; 0i32; m.rows()]?);
    Ok(Matrix::new(alloc, m.modulus(), Free { degrees }))
}

/// Enters a row of constants: what the pivots leave of it, made monic, is one more pivot, unless it is 0. Its lead joins
/// those that are taken.
pub(crate) fn enter_constants(
    alloc: Global,
    pivots: &mut Matrix,
    taken: &mut Leads,
    constants: &Vector,
) -> Result<(), OutOfMemory>
    requires pivots { ArePivots pivots.old }
    requires taken { taken.old ≡ lead_places pivots.old.rows }
    requires degree { constants.now.degree ≡ pos 0 }
    requires vector { IsVector pivots.old.ring pivots.old.target constants.now }
    ensures entered { OnOk result (IsEntered pivots.old pivots.new constants.now.terms) }
    ensures taken { OnOk result (taken.new ≡ lead_places pivots.new.rows) }
{
    matrix_facts(pivots);
    if constants.is_empty() {
        return Ok(());
    }
    let (rest, _quotients) = normal_form(alloc, constants, pivots)?;
    let Some(lead) = first_term(&rest) else {
        return Ok(());
    };
    let pivot = made_monic(alloc, pivots, &rest, lead)?;
    pivots.push_row(pivot)?;
    taken.push(alloc, lead)?;
    Ok(())
}

/// The first term of a vector, or `None` exactly where the vector is 0.
fn first_term(v: &Vector) -> Option<&Term>
    ensures first { MatchOption result (v.now.terms ≡ []) (λ t. v.now.terms ≡ t.now ∷ tail_of v.now.terms) }
{
    v.terms().first()
}

/// A rest of degree 0 with this lead, made monic.
fn made_monic(
    alloc: Global,
    pivots: &Matrix,
    rest: &Vector,
    lead: &Term,
) -> Result<Vector, OutOfMemory>
    requires lead { rest.now.terms ≡ lead.now ∷ tail_of rest.now.terms }
    requires degree { rest.now.degree ≡ pos 0 }
    requires vector { IsVector pivots.now.ring pivots.now.target rest.now }
    requires pivots { ArePivots pivots.now }
    ensures multiple { IfOk result (λ v. IsMonicMultiple pivots.now.ring rest.now.terms v) }
    ensures vector { IfOk result (λ v. IsVector pivots.now.ring pivots.now.target v) }
{
    matrix_facts(pivots);
    let modulus = pivots.modulus();
    modulus.facts();
    rest.multiple(alloc, modulus, Mono::one(), modulus.inv(lead.coefficient))
}
