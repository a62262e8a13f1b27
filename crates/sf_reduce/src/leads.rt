ghost use Rattle.std.specs.Prelude.{◌≡◌, ◌<◌, [], ◌∷◌, ◌++◌, true, false, length, HoldsAt, IfOk, OnOk, OnErr, IfSome, IsNone};
ghost use Rattle.std.specs.List.{AllByRecursion, list_any};
ghost use Rattle.sf_algebra.specs.Vectors.{Vector, Place};
ghost use Rattle.sf_groebner.specs.Leads.{PlaceDivides, place_divides};
ghost use Rattle.sf_groebner.specs.ReducedBases.{IsMonic};
ghost use Rattle.sf_groebner.proofs.Constructions.LeadDivisors.{lead_places};
ghost use Rattle.sf_reduce.specs.LeadIndex.{HasOneMore, HaveSameLeads, has_divisor, is_divisor};

use sf_field::OutOfMemory;
use sf_matrix::{List, Matrix, Term};
use sf_mono::Mono;
use std::alloc::Global;
use std::marker::Model;

/// The number of a row, and the monomial of its lead.
#[derive(Clone, Copy, Debug, PartialEq, Eq)]
struct Lead {
    row: usize,
    monomial: Mono,
}

impl Model for Lead {
    ghost use Rattle.sf_reduce.specs.LeadIndex.{NumberedLead};

    ghost Value = { NumberedLead };

    ghost view = { λ l. record { row = l.row; monomial = l.monomial } };

    ghost inverse = { λ l. record { row = l.row; monomial = l.monomial } };
}

/// The leads of some rows, in which a divisor is sought among those at one position alone. Contracts see it as the
/// list of the places, in the order of the rows.
#[derive(Debug, Drop)]
pub struct Leads {
    places: Vec<Term>,
    index: Vec<List<Lead>>,
}

impl Model for Leads {
    ghost use Rattle.std.specs.Prelude.{List, map};
    ghost use Rattle.sf_algebra.specs.Terms.{Term};
    ghost use Rattle.sf_algebra.specs.Vectors.{Place};
    ghost use Rattle.sf_reduce.specs.LeadIndex.{IsIndex};

    ghost Value = { List Place };

    ghost view = { λ l. map (λ (t : Term Place). t.at) l.places.items };

    ghost invariant = { λ l. IsIndex l.index.items (map (λ (t : Term Place). t.at) l.places.items) };
}

impl Leads {
    /// No leads. It allocates nothing yet.
    pub fn new(alloc: Global) -> Leads
        ensures empty { result ≡ [] }
    {
        Leads {
            places: Vec::new(alloc),
            index: Vec::new(alloc),
        }
    }

    /// The leads of the rows of a matrix, which are monic.
    pub fn of(alloc: Global, basis: &Matrix) -> Result<Leads, OutOfMemory>
        requires monic { AllByRecursion (λ (v : Vector). IsMonic v.terms) basis.now.rows }
        ensures leads { IfOk result (λ l. l ≡ lead_places basis.now.rows) }
    {
        let mut leads = Leads::new(alloc);
        for i in 0..basis.rows() {
            let row = basis.row(i).terms();
            leads.push(alloc, &row[0])?;
        }
        Ok(leads)
    }

    /// Adds the place of the lead of a last row.
    pub fn push(&mut self, alloc: Global, lead: &Term) -> Result<(), OutOfMemory>
        ensures ok { OnOk result (self.new ≡ self.old ++ lead.now.at ∷ []) }
        ensures err { OnErr result (self.new ≡ self.old) }
    {
        let row = self.places.len();
        let monomial = lead.monomial;
        self.places.push(*lead)?;
        match enter_lead(
            alloc,
            &mut self.index,
            lead.position,
            Lead { row, monomial },
        ) {
            Ok(()) => Ok(()),
            Err(error) => {
                self.places.pop();
                Err(error)
            }
        }
    }

    /// The number of a row whose lead divides the place of a term, or `None` exactly where there is none.
    pub fn divisor(&self, term: &Term) -> Option<usize>
        ensures none { IsNone result → list_any (λ k. place_divides k term.now.at) self.now ≡ false }
        ensures within { IfSome result (λ i. i < length self.now) }
        ensures divisor { IfSome result (λ i. HoldsAt (λ (k : Place). PlaceDivides k term.now.at) self.now i) }
    {
        match self.index.get(term.position as usize) {
            None => None,
            Some(leads) => divisor_among(leads.as_slice(), term.monomial),
        }
    }
}

/// The number of a row whose lead's monomial divides another one.
fn divisor_among(leads: &[Lead], monomial: Mono) -> Option<usize>
    ensures none { IsNone result → list_any (has_divisor monomial) leads.now ≡ false }
    ensures divisor { IfSome result (λ i. list_any (is_divisor i monomial) leads.now ≡ true) }
{
    for lead in leads {
        if lead.monomial.divides(monomial) {
            return Some(lead.row);
        }
    }
    None
}

/// Makes the lists reach a position, by empty ones.
fn reach(alloc: Global, index: &mut Vec<List<Lead>>, position: usize) -> Result<(), OutOfMemory>
    ensures same { HaveSameLeads index.old.items index.new.items }
    ensures reached { OnOk result (position < length index.new.items) }
{
    while index.len() <= position {
        index.push(List::new(alloc))?;
    }
    Ok(())
}

/// Adds a lead to the list at a position.
fn enter_lead(
    alloc: Global,
    index: &mut Vec<List<Lead>>,
    position: u64,
    lead: Lead,
) -> Result<(), OutOfMemory>
    ensures ok { OnOk result (HasOneMore position lead index.old.items index.new.items) }
    ensures err { OnErr result (HaveSameLeads index.old.items index.new.items) }
{
    let place = position as usize;
    reach(alloc, index, place)?;
    index[place].push(lead)?;
    Ok(())
}
