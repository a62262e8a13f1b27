ghost use Rattle.std.specs.Prelude.{◌≡◌, [], IfOk, OnOk};
ghost use Rattle.std.specs.List.{AllByRecursion};
ghost use Rattle.sf_groebner.specs.Divisions.{IsDivided};
ghost use Rattle.sf_groebner.specs.Spans.{InSpan};
ghost use Rattle.sf_groebner.proofs.Constructions.LeadDivisors.{lead_places};
ghost use Rattle.sf_minimal.specs.Spaces.{IsSpace};
ghost use Rattle.sf_minimal.specs.Steps.{HasRowOfDegree, IsLowBasis};

use crate::facts::matrix_facts;
use crate::spaces::Space;
use sf_field::OutOfMemory;
use sf_matrix::{Matrix, Term, Vector};
use sf_reduce::{Leads, rest_of, sum_of};
use std::alloc::Global;

/// The quotients of a vector of the span by the rows: by a sum over the places of its degree, or else term by term.
pub(crate) fn quotients_of(
    alloc: Global,
    cands: &Matrix,
    leads: &Leads,
    spaces: &mut Vec<Space>,
    v: &Vector,
) -> Result<Vec<Term>, OutOfMemory>
    requires basis { IsLowBasis cands.now }
    requires leads { leads.now ≡ lead_places cands.now.rows }
    requires spaces { AllByRecursion (IsSpace cands.now) spaces.old.items }
    requires inside { InSpan cands.now v.now }
    requires degree { HasRowOfDegree cands.now v.now.degree }
    ensures divided { IfOk result (λ qs. IsDivided cands.now.ring cands.now.target cands.now.rows v.now.degree v.now.terms [] qs.items) }
    ensures spaces { OnOk result (AllByRecursion (IsSpace cands.now) spaces.new.items) }
{
    matrix_facts(cands);
    let mut space = taken_space(alloc, cands, spaces, v.degree())?;
    let found = space.quotients(alloc, cands, leads, v)?;
    spaces.push(space)?;
    match found {
        Some(quotients) => Ok(quotients),
        None => divided(alloc, cands, leads, v),
    }
}

/// The quotients, term by term.
fn divided(
    alloc: Global,
    cands: &Matrix,
    leads: &Leads,
    v: &Vector,
) -> Result<Vec<Term>, OutOfMemory>
    requires basis { IsLowBasis cands.now }
    requires leads { leads.now ≡ lead_places cands.now.rows }
    requires inside { InSpan cands.now v.now }
    requires degree { HasRowOfDegree cands.now v.now.degree }
    ensures divided { IfOk result (λ qs. IsDivided cands.now.ring cands.now.target cands.now.rows v.now.degree v.now.terms [] qs.items) }
{
    matrix_facts(cands);
    let sum = sum_of(alloc, cands.modulus(), v)?;
    let (_rest, quotients) = rest_of(alloc, sum, cands, leads)?;
    Ok(quotients)
}

/// The space of a degree, taken out of a list or made.
fn taken_space(
    alloc: Global,
    cands: &Matrix,
    spaces: &mut Vec<Space>,
    degree: i32,
) -> Result<Space, OutOfMemory>
    requires spaces { AllByRecursion (IsSpace cands.now) spaces.old.items }
    ensures spaces { AllByRecursion (IsSpace cands.now) spaces.new.items }
    ensures space { IfOk result (IsSpace cands.now) }
    ensures degree { IfOk result (λ s. s.degree ≡ degree) }
{
    for k in 0..spaces.len() {
        if spaces[k].degree == degree {
            return Ok(spaces.remove(k));
        }
    }
    Space::new(alloc, cands, degree)
}
