ghost use Rattle.std.specs.Prelude.{◌≡◌, ◌<◌, ◌≤◌, ◌<ℤ◌, drop, map, IfOk, IsTrue, IsFalse, List, slice_index_or, true, ◌++◌, ◌∷◌, []};
ghost use Rattle.std.specs.List.{AllByRecursion, list_any};
ghost use Rattle.sf_algebra.specs.Bounds.{HasSmallSize};
ghost use Rattle.sf_algebra.specs.Rings.{ones};
ghost use Rattle.sf_algebra.specs.Vectors.{Vector};
ghost use Rattle.sf_groebner.specs.Leads.{place_divides};
ghost use Rattle.sf_groebner.specs.ReducedBases.{IsMonic, IsSorted};
ghost use Rattle.sf_groebner.specs.Spans.{IsGraphVector};
ghost use Rattle.sf_groebner.proofs.Constructions.LeadDivisors.{lead_places};
ghost use Rattle.sf_variables.specs.Variables.{IsVectorInVariables};
ghost use Rattle.sf_buchberger.specs.CountedRows.{HasNewRow, HasNewRows, HasReducedTailBy, IsCounting, IsFinding, IsTakenUp};
ghost use Rattle.sf_dense.specs.Entries.{Entry};
ghost use Rattle.sf_buchberger.specs.Eliminations.{IsElimination, IsEliminationOf, IsGraphList};

use crate::counted::columns::{divided, raised, sources};
use crate::counted::elimination::Elimination;
use crate::counted::state::Counting;
use crate::growth::leads::first_term;
use crate::growth::pairing::push_pairs;
use crate::growth::steps::facts;
use crate::sorting::row_order;
use sf_dense::{Entry, Place, multiple_entries, terms_of};
use sf_field::OutOfMemory;
use sf_matrix::{Matrix, Term, Vector};
use sf_mono::Mono;
use std::alloc::Global;
use std::cmp::Ordering;

/// The greatest number of rows.
const GREATEST_SIZE: usize = 4096;

impl Counting {
    /// Adds the elements of a degree, which is above those of all before. `false` where they aren't all of this degree, or
    /// aren't reduced.
    pub(crate) fn finish(
        &mut self,
        alloc: Global,
        m: &Matrix,
        limit: u32,
        elimination: &Elimination,
    ) -> Result<bool, OutOfMemory>
        requires counting { IsCounting limit m.now self.old }
        requires elimination { IsEliminationOf self.old.variables elimination.now.degree m.now elimination.now }
        requires below { AllByRecursion (λ (v : Vector). v.degree <ℤ elimination.now.degree) self.old.rows.rows }
        requires size { HasSmallSize m.now }
        requires limit { limit ≤ 60 }
        ensures same { self.new.variables ≡ self.old.variables }
        ensures counting { IfOk result (λ ok. IsTrue ok → IsCounting limit m.now self.new) }
    {
        facts(m);
        let from = self.rows.rows();
        if !self.push_elements(alloc, m, limit, elimination)? {
            return Ok(false);
        }
        let flags = divided(alloc, &elimination.columns, &self.leads)?;
        if raised(&flags) < sources(&elimination.columns, m.cols())
            || !self.have_reduced_tails(alloc, from, &elimination.columns, &flags)?
        {
            return Ok(false);
        }
        self.full.push(elimination.degree)?;
        Ok(true)
    }

    /// Adds the elements found. `false` where one isn't new, or past the bounds.
    fn push_elements(
        &mut self,
        alloc: Global,
        m: &Matrix,
        limit: u32,
        elimination: &Elimination,
    ) -> Result<bool, OutOfMemory>
        requires finding { IsFinding limit m.now self.old }
        requires elimination { IsEliminationOf self.old.variables elimination.now.degree m.now elimination.now }
        requires size { HasSmallSize m.now }
        requires limit { limit ≤ 60 }
        ensures same { self.new.variables ≡ self.old.variables }
        ensures more { IfOk result (λ ok. IsTrue ok → HasNewRows limit m.now self.old elimination.now.degree self.new) }
    {
        for element in &elimination.found {
            let list = element.1;
            match elimination.lists.get(list as usize) {
                None => return Ok(false),
                Some(entries) => {
                    let row = row_of(alloc, m, elimination, entries.as_slice())?;
                    if !self.push_element(alloc, m, limit, row)? {
                        return Ok(false);
                    }
                }
            }
        }
        Ok(true)
    }

    /// Adds a vector of the graph as an element. `false` where it isn't monic, behind the others and within the bounds, or
    /// where its lead isn't new.
    fn push_element(
        &mut self,
        alloc: Global,
        m: &Matrix,
        limit: u32,
        row: Vector,
    ) -> Result<bool, OutOfMemory>
        requires finding { IsFinding limit m.now self.old }
        requires graph { IsGraphVector m.now row }
        requires variables { IsVectorInVariables self.old.variables row }
        requires size { HasSmallSize m.now }
        requires limit { limit ≤ 60 }
        ensures same { self.new.variables ≡ self.old.variables }
        ensures more { IfOk result (λ ok. IsTrue ok → HasNewRow limit m.now self.old row self.new) }
    {
        facts(m);
        let Some(lead) = first_term(&row) else {
            return Ok(false);
        };
        if !self.takes(limit, &row, lead) {
            return Ok(false);
        }
        let lead = *lead;
        push_pairs(&mut self.pairs, &self.rows, &lead, row.degree())?;
        self.leads.push(alloc, &lead)?;
        self.rows.push_row(row)?;
        Ok(true)
    }

    /// Whether a row, which has this lead, is monic, behind the others and within the bounds, and its lead is new.
    fn takes(&self, limit: u32, row: &Vector, lead: &Term) -> bool
        ensures taken { IsTrue result → IsTakenUp limit self.now row.now lead.now }
    {
        lead.coefficient == 1
            && lead.monomial.sum() <= limit
            && self.rows.rows() < GREATEST_SIZE
            && self.leads.divisor(lead).is_none()
            && is_behind(&self.rows, row)
    }

    /// Whether no lead divides a term behind the first of the rows from a number on. The flags tell which places they divide.
    fn have_reduced_tails(
        &self,
        alloc: Global,
        from: usize,
        columns: &[Place],
        flags: &[bool],
    ) -> Result<bool, OutOfMemory>
        requires flags { flags.now ≡ map (λ k. list_any (λ j. place_divides j k) self.now.leads) columns.now }
        requires monic { AllByRecursion (λ (v : Vector). IsMonic v.terms) self.now.rows.rows }
        requires leads { self.now.leads ≡ lead_places self.now.rows.rows }
        ensures reduced { IfOk result (λ ok. IsTrue ok → AllByRecursion (HasReducedTailBy self.now.rows.rows) (drop from self.now.rows.rows)) }
    {
        for i in from..self.rows.rows() {
            if !has_reduced_tail(alloc, columns, flags, self.rows.row(i))? {
                return Ok(false);
            }
        }
        Ok(true)
    }
}

/// Whether none of the places of a vector's terms behind the first has its flag raised.
fn has_reduced_tail(
    alloc: Global,
    columns: &[Place],
    flags: &[bool],
    row: &Vector,
) -> Result<bool, OutOfMemory>
    ensures reduced { (rows : List Vector) → AllByRecursion (λ (v : Vector). IsMonic v.terms) rows → flags.now ≡ map (λ k. list_any (λ j. place_divides j k) (lead_places rows)) columns.now
        → IfOk result (λ ok. IsTrue ok → HasReducedTailBy rows row.now) }
{
    let [_, tail @ ..] = row.terms() else {
        return Ok(true);
    };
    let Some(entries) = multiple_entries(alloc, columns, tail, Mono::one())? else {
        return Ok(false);
    };
    Ok(!have_raised(flags, &entries))
}

/// Whether the flag of one of the entries' places is raised.
fn have_raised(flags: &[bool], entries: &[Entry]) -> bool
    ensures raised { IsFalse result → AllByRecursion (λ (e : Entry). IsFalse (slice_index_or flags.now e.cell true)) entries.now }
{
    for entry in entries {
        match flags.get(entry.cell as usize) {
            Some(false) => {}
            _ => return true,
        }
    }
    false
}

/// Whether a row comes behind the last one.
fn is_behind(rows: &Matrix, row: &Vector) -> bool
    ensures behind { IsTrue result → IsSorted ones rows.now.rows → IsSorted ones (rows.now.rows ++ row.now ∷ []) }
{
    let count = rows.rows();
    count == 0 || row_order(rows.row(count - 1), row) == Ordering::Less
}

/// The vector that a list of entries stands for.
fn row_of(
    alloc: Global,
    m: &Matrix,
    elimination: &Elimination,
    entries: &[Entry],
) -> Result<Vector, OutOfMemory>
    requires elimination { IsElimination m.now elimination.now }
    requires entries { IsGraphList elimination.now.variables m.now elimination.now.degree elimination.now.columns.items entries.now }
    ensures degree { IfOk result (λ v. v.degree ≡ elimination.now.degree) }
    ensures graph { IfOk result (IsGraphVector m.now) }
    ensures variables { IfOk result (IsVectorInVariables elimination.now.variables) }
{
    facts(m);
    let terms = terms_of(alloc, &elimination.columns, entries)?;
    Ok(Vector::from_canonical(elimination.degree, terms))
}
