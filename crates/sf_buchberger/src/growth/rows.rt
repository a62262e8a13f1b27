ghost use Rattle.std.specs.Prelude.{◌≡◌, ◌<◌, ◌≤◌, [], ◌∷◌, length, IsTrue, ◌↔◌, IfOk, OnOk, MatchResult, MatchBool};
ghost use Rattle.std.specs.List.{AllByRecursion};
ghost use Rattle.sf_algebra.specs.Bounds.{GREATEST_SIZE, GREATEST_SUM};
ghost use Rattle.sf_algebra.specs.Monomials.{exponent_sum};
ghost use Rattle.sf_algebra.specs.Rings.{ones, plain};
ghost use Rattle.sf_algebra.specs.Vectors.{Vector, IsVector, place_degree, IsCanonicalRow};
ghost use Rattle.sf_groebner.specs.Divisions.{tail_of};
ghost use Rattle.sf_groebner.specs.ReducedBases.{IsMonic};
ghost use Rattle.sf_groebner.specs.Small.{HasLeadUpTo};
ghost use Rattle.sf_groebner.proofs.Constructions.LeadDivisors.{lead_places};
ghost use Rattle.sf_matrix.specs.Bounds.{DegreeFits};
ghost use Rattle.sf_matrix.specs.declared.basis.BaseFault.TheVariants.{Large};
ghost use Rattle.sf_reduce.specs.TermSums.{sum_vector};
ghost use Rattle.sf_buchberger.specs.GrowthSteps.{CanDivide, IsBoundFault, IsDividedAs, IsExtended, IsGrowthFault, IsMadeMonic, IsPastBounds, PairsFit, with_row};

use crate::growth::leads::first_term;
use crate::growth::pairing::push_pairs;
use crate::growth::state::{Growth, Outcome};
use sf_field::OutOfMemory;
use sf_matrix::{BaseFault, Matrix, Term, Vector};
use sf_mono::Mono;
use sf_reduce::{Sum, rest_of};
use std::alloc::Global;

/// The greatest number of rows.
const GREATEST_SIZE: usize = 4096;

impl Growth {
    /// Divides a sum by the rows. A rest that isn't 0 is made monic and added.
    pub(crate) fn grow(
        &mut self,
        alloc: Global,
        m: &Matrix,
        limit: u32,
        sum: Sum,
    ) -> Result<Outcome, BaseFault>
        requires limit { limit ≤ 60 }
        requires ring { self.old.rows.ring ≡ plain sum.modulus }
        requires can { CanDivide limit self.old (sum_vector sum) }
        ensures step { MatchResult result (λ outcome. IsDividedAs limit self.old (sum_vector sum) outcome self.new)
            (λ fault. IsGrowthFault limit m.now self.old.rows (sum_vector sum) fault) }
    {
        let (rest, _steps) = rest_of(alloc, sum, &self.rows, &self.leads)?;
        match first_term(&rest) {
            None => Ok(Outcome::Zero),
            Some(lead) => {
                self.extend(alloc, m, limit, &rest, lead)?;
                Ok(Outcome::Grown)
            }
        }
    }

    /// Adds a rest, made monic, which has this lead.
    fn extend(
        &mut self,
        alloc: Global,
        m: &Matrix,
        limit: u32,
        rest: &Vector,
        lead: &Term,
    ) -> Result<(), BaseFault>
        requires limit { limit ≤ 60 }
        requires lead { rest.now.terms ≡ lead.now ∷ tail_of rest.now.terms }
        requires vector { IsVector self.old.rows.ring self.old.rows.target rest.now }
        requires room { DegreeFits self.old.rows.target rest.now.degree }
        requires monic { AllByRecursion (λ (v : Vector). IsMonic v.terms) self.old.rows.rows }
        requires low { AllByRecursion (λ (v : Vector). HasLeadUpTo ones limit v.terms) self.old.rows.rows }
        ensures step { MatchResult result (λ _. IsExtended limit self.old rest.now lead.now self.new)
            (λ fault. IsBoundFault limit m.now self.old.rows.rows lead.now.at fault) }
    {
        if is_past_bounds(&self.rows, limit, lead) {
            return Err(too_large(m));
        }
        let row = made_monic(alloc, &self.rows, rest, lead)?;
        self.push(alloc, row, lead)?;
        Ok(())
    }

    /// Adds a row, which has this lead.
    fn push(&mut self, alloc: Global, row: Vector, lead: &Term) -> Result<(), OutOfMemory>
        requires few { length self.old.rows.rows < GREATEST_SIZE }
        requires vector { IsVector self.old.rows.ring self.old.rows.target row }
        requires monic { AllByRecursion (λ (v : Vector). IsMonic v.terms) self.old.rows.rows }
        requires room { PairsFit self.old.rows.rows lead.now.at }
        requires degree { row.degree ≡ place_degree ones self.old.rows.target lead.now.at }
        ensures ok { OnOk result (self.new ≡ with_row self.old row lead.now.at) }
    {
        push_pairs(&mut self.pairs, &self.rows, lead, row.degree())?;
        self.leads.push(alloc, lead)?;
        self.done.push_row(alloc)?;
        self.rows.push_row(row)?;
        Ok(())
    }
}

/// Whether a lead is above the limit, or there are as many rows as there may be.
fn is_past_bounds(rows: &Matrix, limit: u32, lead: &Term) -> bool
    ensures { IsTrue result ↔ IsPastBounds limit rows.now.rows lead.now.at }
{
    lead.monomial.sum() > limit || rows.rows() >= GREATEST_SIZE
}

/// The fault that tells the size of a matrix.
fn too_large(m: &Matrix) -> BaseFault
    ensures { result ≡ Large (length m.now.rows) (length m.now.target) }
{
    BaseFault::Large {
        rows: m.rows() as u64,
        cols: m.cols() as u64,
    }
}

/// The multiple of a vector by the inverse of the coefficient of its lead, over the ring of the rows.
fn made_monic(
    alloc: Global,
    rows: &Matrix,
    rest: &Vector,
    lead: &Term,
) -> Result<Vector, OutOfMemory>
    requires lead { rest.now.terms ≡ lead.now ∷ tail_of rest.now.terms }
    requires vector { IsVector rows.now.ring rows.now.target rest.now }
    requires room { DegreeFits rows.now.target rest.now.degree }
    ensures vector { IfOk result (λ v. IsVector rows.now.ring rows.now.target v) }
    ensures degree { IfOk result (λ v. v.degree ≡ place_degree ones rows.now.target lead.now.at) }
    ensures monic { IfOk result (λ v. IsMadeMonic rows.now.ring lead.now rest.now v) }
{
    let modulus = rows.modulus();
    modulus.facts();
    // It is read, so that its range is known.
    let _degree = rest.degree();
    rest.multiple(alloc, modulus, Mono::one(), modulus.inv(lead.coefficient))
}
