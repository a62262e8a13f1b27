ghost use Rattle.std.specs.Prelude.{◌≡◌, ◌≤◌, ◌<◌, [], length, IfOk, IfSome, IsTrue};
ghost use Rattle.std.specs.List.{AllByRecursion};
ghost use Rattle.sf_algebra.specs.MatrixOperations.{row_at};
ghost use Rattle.sf_algebra.specs.Monomials.{VARIABLES};
ghost use Rattle.sf_algebra.specs.Rings.{ones};
ghost use Rattle.sf_algebra.specs.Terms.{IsCanonical};
ghost use Rattle.sf_algebra.specs.VectorOperations.{row_multiple, row_sum};
ghost use Rattle.sf_algebra.specs.Vectors.{Vector, place_cmp};
ghost use Rattle.sf_dense.specs.Entries.{column_at};
ghost use Rattle.sf_groebner.specs.Divisions.{IsDivided};
ghost use Rattle.sf_groebner.specs.ReducedBases.{IsMonic};
ghost use Rattle.sf_groebner.proofs.Constructions.LeadDivisors.{lead_places};
ghost use Rattle.sf_variables.specs.Columns.{AreFalling};
ghost use Rattle.sf_minimal.specs.Spaces.{GoesOn, IsAdded, IsPlaceOfDegree, IsSpace, IsTakenAway, sum_of};

use crate::degrees::lead_of;
use crate::facts::matrix_facts;
use crate::sizes::{most_places, variables_of};
use sf_dense::{Cells, Place, columns_of, multiple_entries};
use sf_field::OutOfMemory;
use sf_matrix::{Matrix, Term, Vector};
use sf_mono::Mono;
use sf_reduce::Leads;
use std::alloc::Global;

/// The places of a degree, and a sum over them. Where they are too many there are none.
#[derive(Drop)]
pub(crate) struct Space {
    pub(crate) degree: i32,
    pub(crate) places: Vec<Place>,
    pub(crate) cells: Cells,
}

impl Space {
    /// The places of a degree, and the sum 0.
    pub(crate) fn new(alloc: Global, m: &Matrix, degree: i32) -> Result<Space, OutOfMemory>
        ensures degree { IfOk result (λ s. s.degree ≡ degree) }
        ensures space { IfOk result (IsSpace m.now) }
    {
        let places = places_of(alloc, m, degree)?;
        let cells = Cells::zero(alloc, places.len() as u32)?;
        Ok(Space {
            degree,
            places,
            cells,
        })
    }

    /// The quotients of a vector by the rows of a matrix, or `None` where they aren't found: where a place isn't among
    /// those of the space, or where no lead divides one. `leads` are those of the rows.
    ///
    /// The places are gone through from the greatest on, and at each a multiple of a row takes away what stands there.
    pub(crate) fn quotients(
        &mut self,
        alloc: Global,
        m: &Matrix,
        leads: &Leads,
        v: &Vector,
    ) -> Result<Option<Vec<Term>>, OutOfMemory>
        requires space { IsSpace m.now self.old }
        requires canonical { IsCanonical (place_cmp ones) m.now.ring.modulus v.now.terms }
        requires degree { v.now.degree ≡ self.old.degree }
        requires monic { AllByRecursion (λ (w : Vector). IsMonic w.terms) m.now.rows }
        requires leads { leads.now ≡ lead_places m.now.rows }
        ensures goes_on { GoesOn m.now self.old self.new }
        ensures divided { IfOk result (λ found. IfSome found (λ qs. IsDivided m.now.ring m.now.target m.now.rows v.now.degree v.now.terms [] qs.items)) }
    {
        matrix_facts(m);
        if !self.load(alloc, m, v)? {
            return Ok(None);
        }
        let mut steps = Vec::new(alloc);
        for cell in 0..self.places.len() {
            let residue = self.cells.residue(m.modulus(), cell);
            if residue != 0 {
                match self.take_away(alloc, m, leads, cell, residue)? {
                    None => {
                        return Ok(None);
                    }
                    Some(step) => {
                        steps.push(step)?;
                    }
                }
            }
        }
        if !self.is_zero(alloc, m)? {
            return Ok(None);
        }
        Ok(Some(steps))
    }

    /// Makes the sum that of a vector. `false` where it has a place that isn't there.
    fn load(&mut self, alloc: Global, m: &Matrix, v: &Vector) -> Result<bool, OutOfMemory>
        requires space { IsSpace m.now self.old }
        requires canonical { IsCanonical (place_cmp ones) m.now.ring.modulus v.now.terms }
        ensures goes_on { GoesOn m.now self.old self.new }
        ensures sum { IfOk result (λ ok. IsTrue ok → sum_of m.now self.new ≡ v.now.terms) }
    {
        matrix_facts(m);
        self.cells.clear();
        match multiple_entries(alloc, &self.places, v.terms(), Mono::one())? {
            None => Ok(false),
            Some(entries) => Ok(self.cells.add(1, &entries)),
        }
    }

    /// Takes away what stands at a place, by a multiple of a row. It answers the multiple's coefficient for the row.
    fn take_away(
        &mut self,
        alloc: Global,
        m: &Matrix,
        leads: &Leads,
        cell: usize,
        residue: u32,
    ) -> Result<Option<Term>, OutOfMemory>
        requires space { IsSpace m.now self.old }
        requires inside { cell < length self.old.places.items }
        requires residue { residue < m.now.ring.modulus }
        requires monic { AllByRecursion (λ (w : Vector). IsMonic w.terms) m.now.rows }
        requires leads { leads.now ≡ lead_places m.now.rows }
        ensures goes_on { GoesOn m.now self.old self.new }
        ensures taken { IfOk result (λ found. IfSome found (IsTakenAway m.now (sum_of m.now self.old) (sum_of m.now self.new)
            (record { at = column_at self.old.places.items cell; coefficient = residue }))) }
    {
        matrix_facts(m);
        let place = self.places[cell];
        let first = Term {
            position: place.position,
            monomial: place.monomial,
            coefficient: residue,
        };
        match leads.divisor(&first) {
            None => Ok(None),
            Some(i) => {
                let factor = place.monomial.quotient(lead_of(m, i).monomial);
                if !self.subtract(alloc, m, i, factor, residue)? {
                    return Ok(None);
                }
                Ok(Some(Term {
                    position: i as u64,
                    monomial: factor,
                    coefficient: residue,
                }))
            }
        }
    }

    /// Subtracts a multiple of a row. `false` where it has a place that isn't there.
    fn subtract(
        &mut self,
        alloc: Global,
        m: &Matrix,
        i: usize,
        factor: Mono,
        residue: u32,
    ) -> Result<bool, OutOfMemory>
        requires space { IsSpace m.now self.old }
        requires row { i < length m.now.rows }
        requires residue { residue < m.now.ring.modulus }
        ensures goes_on { GoesOn m.now self.old self.new }
        ensures sum { IfOk result (λ ok. IsTrue ok → IsAdded m.now i factor residue (sum_of m.now self.old) (sum_of m.now self.new)) }
    {
        matrix_facts(m);
        let modulus = m.modulus();
        let _bound = modulus.value();
        let coefficient = modulus.neg(residue) as u16;
        match multiple_entries(alloc, &self.places, m.row(i).terms(), factor)? {
            None => Ok(false),
            Some(entries) => Ok(self.cells.add(coefficient, &entries)),
        }
    }

    /// Whether the sum is 0.
    fn is_zero(&self, alloc: Global, m: &Matrix) -> Result<bool, OutOfMemory>
        requires space { IsSpace m.now self.now }
        ensures zero { IfOk result (λ ok. IsTrue ok → sum_of m.now self.now ≡ []) }
    {
        matrix_facts(m);
        match self.cells.monic_entries(alloc, m.modulus())? {
            None => Ok(true),
            Some(_) => Ok(false),
        }
    }
}

/// All places of a degree, the greatest first, or none where they are too many.
fn places_of(alloc: Global, m: &Matrix, degree: i32) -> Result<Vec<Place>, OutOfMemory>
    ensures falling { IfOk result (λ ks. AreFalling ones ks.items) }
    ensures inside { IfOk result (λ ks. AllByRecursion (IsPlaceOfDegree m.now.target degree) ks.items) }
    ensures few { IfOk result (λ ks. length ks.items ≤ 500_000) }
{
    match columns_of(alloc, variables_of(m), m.target(), degree, most_places(m))? {
        None => Ok(Vec::new(alloc)),
        Some(places) => Ok(places),
    }
}
