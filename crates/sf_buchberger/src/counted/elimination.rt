ghost use Rattle.std.specs.Prelude.{◌≡◌, ◌<◌, length, IfOk, IfSome, OnOk};
ghost use Rattle.std.specs.List.{AllByRecursion};
ghost use Rattle.sf_algebra.specs.Rings.{ones};
ghost use Rattle.sf_counting.specs.CountLaws.{AreGraphRows};
ghost use Rattle.sf_counting.specs.Counts.{AreGraphColumns};
ghost use Rattle.sf_buchberger.specs.Eliminations.{GoesOn, IsElimination, IsGraphList};

use crate::counted::reducers::Reducer;
use crate::growth::leads::lead_of;
use crate::growth::steps::facts;
use sf_dense::{Cells, Entry, Place, multiple_entries};
use sf_field::OutOfMemory;
use sf_matrix::{List, Matrix};
use std::alloc::Global;

/// The most entries of multiples that are kept: 128 MB of them.
const MOST_KEPT: usize = 16_000_000;

/// The vectors of one degree of a graph: the places of this degree, what each is cleared by, a sum, and lists of entries.
#[derive(Drop)]
pub(crate) struct Elimination {
    pub(crate) variables: usize,
    pub(crate) degree: i32,
    pub(crate) columns: Vec<Place>,
    pub(crate) reducers: Vec<Reducer>,
    pub(crate) cells: Cells,
    pub(crate) lists: Vec<List<Entry>>,
    /// How many entries of multiples are kept.
    pub(crate) kept: usize,
    /// The first place and the list of each element found, by ascending number of the place.
    pub(crate) found: Vec<(u32, usize)>,
}

impl Elimination {
    /// The sum 0, and no lists.
    pub(crate) fn new(
        alloc: Global,
        m: &Matrix,
        variables: usize,
        degree: i32,
        columns: Vec<Place>,
        reducers: Vec<Reducer>,
    ) -> Result<Elimination, OutOfMemory>
        requires columns { AreGraphColumns variables m.now degree columns.items }
        requires few { length columns.items < 4294967296 }
        ensures columns { IfOk result (λ e. e.columns ≡ columns) }
        ensures variables { IfOk result (λ e. e.variables ≡ variables) }
        ensures degree { IfOk result (λ e. e.degree ≡ degree) }
        ensures elimination { IfOk result (λ e. IsElimination m.now e) }
    {
        facts(m);
        let cells = Cells::zero(alloc, columns.len() as u32)?;
        Ok(Elimination {
            variables,
            degree,
            columns,
            reducers,
            cells,
            lists: Vec::new(alloc),
            kept: 0,
            found: Vec::new(alloc),
        })
    }

    /// The entries of the multiple of a row whose lead stands at a place, or `None` where there is none.
    pub(crate) fn multiple(
        &self,
        alloc: Global,
        m: &Matrix,
        rows: &Matrix,
        i: usize,
        cell: usize,
    ) -> Result<Option<Vec<Entry>>, OutOfMemory>
        requires elimination { IsElimination m.now self.now }
        requires rows { AreGraphRows self.now.variables m.now rows.now.rows }
        ensures entries { IfOk result (λ found. IfSome found (λ es. IsGraphList self.now.variables m.now self.now.degree self.now.columns.items es.items)) }
    {
        facts(m);
        if i >= rows.rows() || cell >= self.columns.len() {
            return Ok(None);
        }
        let lead = lead_of(rows, i);
        let place = &self.columns[cell];
        if lead.position != place.position || !lead.monomial.divides(place.monomial) {
            return Ok(None);
        }
        let factor = place.monomial.quotient(lead.monomial);
        multiple_entries(alloc, &self.columns, rows.row(i).terms(), factor)
    }

    /// Adds a multiple of a list by its number. `false` where it isn't added.
    pub(crate) fn add_list(&mut self, m: &Matrix, factor: u16, list: usize) -> bool
        requires elimination { IsElimination m.now self.old }
        ensures goes_on { GoesOn m.now self.old self.new }
    {
        facts(m);
        match self.lists.get(list) {
            None => false,
            Some(entries) => self.cells.add(factor, entries.as_slice()),
        }
    }

    /// Adds a multiple of entries. `false` where it isn't added.
    pub(crate) fn add_entries(&mut self, m: &Matrix, factor: u16, entries: &[Entry]) -> bool
        requires elimination { IsElimination m.now self.old }
        requires entries { IsGraphList self.old.variables m.now self.old.degree self.old.columns.items entries.now }
        ensures goes_on { GoesOn m.now self.old self.new }
    {
        facts(m);
        self.cells.add(factor, entries)
    }

    /// Adds a list, and answers its number.
    pub(crate) fn push_list(
        &mut self,
        m: &Matrix,
        entries: Vec<Entry>,
    ) -> Result<usize, OutOfMemory>
        requires elimination { IsElimination m.now self.old }
        requires entries { IsGraphList self.old.variables m.now self.old.degree self.old.columns.items entries.items }
        ensures goes_on { GoesOn m.now self.old self.new }
    {
        let list = self.lists.len();
        self.lists.push(List::from_vec(entries))?;
        Ok(list)
    }

    /// Makes the sum 0.
    pub(crate) fn clear(&mut self, m: &Matrix)
        requires elimination { IsElimination m.now self.old }
        ensures goes_on { GoesOn m.now self.old self.new }
    {
        facts(m);
        self.cells.clear();
    }

    /// Clears the places from a number on. `false` where it fails.
    pub(crate) fn sweep(
        &mut self,
        alloc: Global,
        m: &Matrix,
        rows: &Matrix,
        from: usize,
    ) -> Result<bool, OutOfMemory>
        requires elimination { IsElimination m.now self.old }
        requires rows { AreGraphRows self.old.variables m.now rows.now.rows }
        ensures goes_on { GoesOn m.now self.old self.new }
    {
        for cell in from..self.columns.len() {
            if !self.clear_cell(alloc, m, rows, cell)? {
                return Ok(false);
            }
        }
        Ok(true)
    }

    /// Clears a place, where it can be cleared. `false` where it fails.
    fn clear_cell(
        &mut self,
        alloc: Global,
        m: &Matrix,
        rows: &Matrix,
        cell: usize,
    ) -> Result<bool, OutOfMemory>
        requires elimination { IsElimination m.now self.old }
        requires rows { AreGraphRows self.old.variables m.now rows.now.rows }
        ensures goes_on { GoesOn m.now self.old self.new }
    {
        let reducer = self.reducer(cell);
        if reducer.is_none() {
            return Ok(true);
        }
        let modulus = m.modulus();
        let residue = self.cells.residue(modulus, cell);
        if residue == 0 {
            return Ok(true);
        }
        let Ok(factor) = u16::try_from(modulus.neg(residue)) else {
            return Ok(false);
        };
        match (reducer.list, reducer.divisor) {
            (Some(list), _) => Ok(self.add_list(m, factor, list)),
            (None, Some(i)) => self.add_row(alloc, m, rows, i, cell, factor),
            (None, None) => Ok(true),
        }
    }

    /// By what a place is cleared.
    pub(crate) fn reducer(&self, cell: usize) -> Reducer {
        match self.reducers.get(cell) {
            Some(reducer) => *reducer,
            None => Reducer {
                divisor: None,
                list: None,
            },
        }
    }

    /// Adds `factor` times the multiple of a row that begins at a place, and keeps the multiple while there is room.
    fn add_row(
        &mut self,
        alloc: Global,
        m: &Matrix,
        rows: &Matrix,
        i: usize,
        cell: usize,
        factor: u16,
    ) -> Result<bool, OutOfMemory>
        requires elimination { IsElimination m.now self.old }
        requires rows { AreGraphRows self.old.variables m.now rows.now.rows }
        ensures goes_on { GoesOn m.now self.old self.new }
    {
        let Some(entries) = self.multiple(alloc, m, rows, i, cell)? else {
            return Ok(false);
        };
        let added = self.add_entries(m, factor, &entries);
        let kept = self.kept.saturating_add(entries.len());
        if kept <= MOST_KEPT {
            self.kept = kept;
            let list = self.push_list(m, entries)?;
            self.set_list(m, cell, list);
        }
        Ok(added)
    }

    /// Has a place cleared by a list from now on.
    pub(crate) fn set_list(&mut self, m: &Matrix, cell: usize, list: usize)
        requires elimination { IsElimination m.now self.old }
        ensures goes_on { GoesOn m.now self.old self.new }
    {
        if let Some(reducer) = self.reducers.get_mut(cell) {
            reducer.list = Some(list);
        }
    }
}
