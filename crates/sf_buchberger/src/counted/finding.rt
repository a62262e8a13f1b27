ghost use Rattle.std.specs.Prelude.{◌≡◌, ◌≤◌, length, IfOk, IfSome};
ghost use Rattle.sf_groebner.specs.GraphRows.{graph_matrix};
ghost use Rattle.sf_variables.specs.Variables.{IsMatrixInVariables};
ghost use Rattle.sf_counting.specs.CountLaws.{AreGraphRows};
ghost use Rattle.sf_buchberger.specs.Eliminations.{GoesOn, IsElimination, IsGraphList};

use crate::counted::elimination::Elimination;
use crate::growth::leads::lead_of;
use crate::growth::steps::facts;
use sf_dense::{Entry, Place, multiple_entries};
use sf_field::OutOfMemory;
use sf_matrix::Matrix;
use sf_mono::Mono;
use std::alloc::Global;
use std::cmp::Ordering;

/// The greatest sum of the exponents of a monomial.
const GREATEST_SUM: u32 = 65_535;

/// What becomes of a generator or a pair.
#[derive(Clone, Copy, Debug, PartialEq, Eq)]
pub(crate) enum Found {
    /// It can't be handled.
    Failed,
    /// It needn't be handled.
    Passed,
    /// Nothing is left when it is cleared.
    Zero,
    /// What is left is an element.
    Element,
}

impl Elimination {
    /// Clears a generator where it can be.
    pub(crate) fn take_generator(
        &mut self,
        alloc: Global,
        m: &Matrix,
        rows: &Matrix,
        generators: &Matrix,
        k: usize,
    ) -> Result<Found, OutOfMemory>
        requires elimination { IsElimination m.now self.old }
        requires rows { AreGraphRows self.old.variables m.now rows.now.rows }
        requires generators { generators.now ≡ graph_matrix m.now }
        requires variables { IsMatrixInVariables self.old.variables m.now }
        ensures goes_on { GoesOn m.now self.old self.new }
    {
        let Some(entries) = self.generator(alloc, m, generators, k)? else {
            return Ok(Found::Failed);
        };
        self.take_entries(alloc, m, rows, &entries)
    }

    /// The entries of a generator.
    fn generator(
        &self,
        alloc: Global,
        m: &Matrix,
        generators: &Matrix,
        k: usize,
    ) -> Result<Option<Vec<Entry>>, OutOfMemory>
        requires elimination { IsElimination m.now self.now }
        requires generators { generators.now ≡ graph_matrix m.now }
        requires variables { IsMatrixInVariables self.now.variables m.now }
        ensures entries { IfOk result (λ found. IfSome found (λ es. IsGraphList self.now.variables m.now self.now.degree self.now.columns.items es.items)) }
    {
        facts(m);
        if k >= generators.rows() {
            return Ok(None);
        }
        let row = generators.row(k);
        if row.degree() != self.degree {
            return Ok(None);
        }
        multiple_entries(alloc, &self.columns, row.terms(), Mono::one())
    }

    /// Clears the S-vector of a pair. The pair is passed over unless one of the two rows clears the least common multiple of
    /// their leads: its S-vector is a sum of those of other pairs.
    pub(crate) fn take_pair(
        &mut self,
        alloc: Global,
        m: &Matrix,
        rows: &Matrix,
        i: usize,
        j: usize,
    ) -> Result<Found, OutOfMemory>
        requires elimination { IsElimination m.now self.old }
        requires rows { AreGraphRows self.old.variables m.now rows.now.rows }
        ensures goes_on { GoesOn m.now self.old self.new }
    {
        if i >= rows.rows() || j >= rows.rows() {
            return Ok(Found::Failed);
        }
        let (first, second) = (lead_of(rows, i), lead_of(rows, j));
        if first.monomial.sum() + second.monomial.sum() > GREATEST_SUM {
            return Ok(Found::Failed);
        }
        let lcm = Place {
            monomial: first.monomial.lcm(second.monomial),
            position: first.position,
        };
        let Some(cell) = place_number(&self.columns, lcm) else {
            return Ok(Found::Failed);
        };
        let other = match self.reducer(cell).divisor {
            Some(l) if l == i => j,
            Some(l) if l == j => i,
            _ => return Ok(Found::Passed),
        };
        let Some(entries) = self.multiple(alloc, m, rows, other, cell)? else {
            return Ok(Found::Failed);
        };
        self.take_entries(alloc, m, rows, &entries)
    }

    /// Clears entries where they can be. What is left is an element, made monic.
    fn take_entries(
        &mut self,
        alloc: Global,
        m: &Matrix,
        rows: &Matrix,
        entries: &[Entry],
    ) -> Result<Found, OutOfMemory>
        requires elimination { IsElimination m.now self.old }
        requires rows { AreGraphRows self.old.variables m.now rows.now.rows }
        requires entries { IsGraphList self.old.variables m.now self.old.degree self.old.columns.items entries.now }
        ensures goes_on { GoesOn m.now self.old self.new }
    {
        self.clear(m);
        if !self.add_entries(m, 1, entries) || !self.sweep(alloc, m, rows, 0)? {
            return Ok(Found::Failed);
        }
        let Some(monic) = self.monic(alloc, m)? else {
            return Ok(Found::Zero);
        };
        match monic.first() {
            None => Ok(Found::Failed),
            Some(first) => {
                let cell = first.cell;
                self.keep_element(m, cell, monic)
            }
        }
    }

    /// The entries of the sum, made monic, or `None` where it is 0.
    fn monic(&self, alloc: Global, m: &Matrix) -> Result<Option<Vec<Entry>>, OutOfMemory>
        requires elimination { IsElimination m.now self.now }
        ensures entries { IfOk result (λ found. IfSome found (λ es. IsGraphList self.now.variables m.now self.now.degree self.now.columns.items es.items)) }
    {
        facts(m);
        self.cells.monic_entries(alloc, m.modulus())
    }

    /// Keeps the entries of an element, which begins at a place that nothing clears yet.
    fn keep_element(
        &mut self,
        m: &Matrix,
        cell: u32,
        entries: Vec<Entry>,
    ) -> Result<Found, OutOfMemory>
        requires elimination { IsElimination m.now self.old }
        requires entries { IsGraphList self.old.variables m.now self.old.degree self.old.columns.items entries.items }
        ensures goes_on { GoesOn m.now self.old self.new }
    {
        if !self.reducer(cell as usize).is_none() {
            return Ok(Found::Failed);
        }
        let list = self.push_list(m, entries)?;
        self.set_list(m, cell as usize, list);
        let at = elements_before(&self.found, cell);
        self.found.insert(at, (cell, list))?;
        Ok(Found::Element)
    }

    /// Clears each element at the first places of the others. `false` where it fails.
    pub(crate) fn clear_found(
        &mut self,
        alloc: Global,
        m: &Matrix,
        rows: &Matrix,
    ) -> Result<bool, OutOfMemory>
        requires elimination { IsElimination m.now self.old }
        requires rows { AreGraphRows self.old.variables m.now rows.now.rows }
        ensures goes_on { GoesOn m.now self.old self.new }
    {
        for k in 0..self.found.len() {
            if !self.clear_element(alloc, m, rows, k)? {
                return Ok(false);
            }
        }
        Ok(true)
    }

    /// Clears the element with `k` elements behind it. `false` where it fails.
    fn clear_element(
        &mut self,
        alloc: Global,
        m: &Matrix,
        rows: &Matrix,
        k: usize,
    ) -> Result<bool, OutOfMemory>
        requires elimination { IsElimination m.now self.old }
        requires rows { AreGraphRows self.old.variables m.now rows.now.rows }
        ensures goes_on { GoesOn m.now self.old self.new }
    {
        if k >= self.found.len() {
            return Ok(false);
        }
        let at = self.found.len() - 1 - k;
        let (cell, list) = self.found[at];
        self.clear(m);
        if !self.add_list(m, 1, list) || !self.sweep(alloc, m, rows, cell as usize + 1)? {
            return Ok(false);
        }
        let Some(monic) = self.monic(alloc, m)? else {
            return Ok(false);
        };
        self.replace_element(m, at, cell, monic)?;
        Ok(true)
    }

    /// Has an element stand for other entries.
    fn replace_element(
        &mut self,
        m: &Matrix,
        at: usize,
        cell: u32,
        entries: Vec<Entry>,
    ) -> Result<(), OutOfMemory>
        requires elimination { IsElimination m.now self.old }
        requires entries { IsGraphList self.old.variables m.now self.old.degree self.old.columns.items entries.items }
        ensures goes_on { GoesOn m.now self.old self.new }
    {
        let list = self.push_list(m, entries)?;
        self.set_list(m, cell as usize, list);
        if let Some(element) = self.found.get_mut(at) {
            *element = (cell, list);
        }
        Ok(())
    }
}

/// How many elements begin before a place.
fn elements_before(found: &[(u32, usize)], cell: u32) -> usize
    ensures within { result ≤ length found.now }
{
    for (at, element) in found.iter().enumerate() {
        if element.0 >= cell {
            return at;
        }
    }
    found.len()
}

/// The number of a place in a falling list, if it is there.
fn place_number(columns: &[Place], place: Place) -> Option<usize> {
    let mut low = 0;
    let mut high = columns.len();
    while low < high {
        let middle = low + (high - low) / 2;
        match compared(&columns[middle], &place) {
            Ordering::Equal => return Some(middle),
            Ordering::Greater => low = middle + 1,
            Ordering::Less => high = middle,
        }
    }
    None
}

/// How two places compare: an earlier generator is greater, and at one generator the monomials decide.
fn compared(a: &Place, b: &Place) -> Ordering {
    match b.position.cmp(&a.position) {
        Ordering::Equal => a.monomial.cmp(&b.monomial),
        unequal => unequal,
    }
}
