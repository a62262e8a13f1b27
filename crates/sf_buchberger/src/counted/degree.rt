ghost use Rattle.std.specs.Prelude.{◌≡◌, ◌≤◌, ◌<◌, ◌<ℤ◌, length, IfOk, IfSome, IsTrue};
ghost use Rattle.std.specs.List.{AllByRecursion};
ghost use Rattle.sf_algebra.specs.Bounds.{HasSmallSize};
ghost use Rattle.sf_algebra.specs.Vectors.{Vector};
ghost use Rattle.sf_algebra.specs.Monomials.{VARIABLES};
ghost use Rattle.sf_groebner.specs.GraphRows.{graph_matrix};
ghost use Rattle.sf_groebner.specs.Spans.{graph_degrees};
ghost use Rattle.sf_counting.specs.CountLaws.{AreGraphRows};
ghost use Rattle.sf_counting.specs.Counts.{AreGraphColumns};
ghost use Rattle.sf_variables.specs.Variables.{IsMatrixInVariables};
ghost use Rattle.sf_buchberger.specs.CountedRows.{HasSameRows, IsCounting};
ghost use Rattle.sf_buchberger.specs.Eliminations.{IsEliminationOf};

use crate::counted::columns::sources;
use crate::counted::elimination::Elimination;
use crate::counted::reducers::reducers;
use crate::counted::state::Counting;
use crate::growth::steps::facts;
use sf_dense::{Place, columns_of};
use sf_field::OutOfMemory;
use sf_matrix::Matrix;
use sf_pairs::Strategy;
use std::alloc::Global;

/// The most places of a degree.
const MOST_COLUMNS: usize = 500_000;

/// A degree may have so many places, and so many more for each term that there is. Where elements have far fewer terms than
/// there are places, a loop over single pairs is faster.
const FEW_COLUMNS: usize = 4_096;

const COLUMNS_OF_A_TERM: usize = 4;

impl Counting {
    /// Finds all elements of a degree, which is above those of all elements before. `false` where it fails.
    pub(crate) fn fill<S: Strategy>(
        &mut self,
        alloc: Global,
        m: &Matrix,
        generators: &Matrix,
        limit: u32,
        degree: i64,
        strategy: &mut S,
    ) -> Result<bool, OutOfMemory>
        requires counting { IsCounting limit m.now self.old }
        requires generators { generators.now ≡ graph_matrix m.now }
        requires size { HasSmallSize m.now }
        requires limit { limit ≤ 60 }
        requires few { self.old.variables ≤ VARIABLES }
        requires variables { IsMatrixInVariables self.old.variables m.now }
        ensures same { self.new.variables ≡ self.old.variables }
        ensures counting { IfOk result (λ ok. IsTrue ok → IsCounting limit m.now self.new) }
    {
        let Ok(degree) = i32::try_from(degree) else {
            return Ok(false);
        };
        if !self.is_below(degree) {
            return Ok(false);
        }
        let most = self.most_columns(generators);
        let Some(columns) = self.columns(alloc, m, degree, most)? else {
            return Ok(false);
        };
        let Some(elimination) = self.eliminated(alloc, m, generators, degree, columns, strategy)?
        else {
            return Ok(false);
        };
        self.finish(alloc, m, limit, &elimination)
    }

    /// Whether all elements have a degree below this one.
    fn is_below(&self, degree: i32) -> bool
        ensures below { IsTrue result → AllByRecursion (λ (v : Vector). v.degree <ℤ degree) self.now.rows.rows }
    {
        for i in 0..self.rows.rows() {
            if self.rows.row(i).degree() >= degree {
                return false;
            }
        }
        true
    }

    /// How many places a degree may have.
    fn most_columns(&self, generators: &Matrix) -> usize
        ensures most { result ≤ 500_000 }
    {
        let terms = terms_of(&self.rows).saturating_add(terms_of(generators));
        let columns = terms.saturating_mul(COLUMNS_OF_A_TERM);
        columns.saturating_add(FEW_COLUMNS).min(MOST_COLUMNS)
    }

    /// The places of a degree, unless they are too many.
    fn columns(
        &self,
        alloc: Global,
        m: &Matrix,
        degree: i32,
        most: usize,
    ) -> Result<Option<Vec<Place>>, OutOfMemory>
        requires target { self.now.rows.target ≡ graph_degrees m.now }
        requires few { self.now.variables ≤ VARIABLES }
        requires most { most ≤ 500_000 }
        ensures columns { IfOk result (λ found. IfSome found (λ ks. AreGraphColumns self.now.variables m.now degree ks.items)) }
        ensures size { IfOk result (λ found. IfSome found (λ ks. length ks.items < 4294967296)) }
    {
        facts(m);
        columns_of(alloc, self.variables, self.rows.target(), degree, most)
    }

    /// The elements of a degree as entries, each cleared at the first places of the others.
    fn eliminated<S: Strategy>(
        &mut self,
        alloc: Global,
        m: &Matrix,
        generators: &Matrix,
        degree: i32,
        columns: Vec<Place>,
        strategy: &mut S,
    ) -> Result<Option<Elimination>, OutOfMemory>
        requires rows { AreGraphRows self.old.variables m.now self.old.rows.rows }
        requires generators { generators.now ≡ graph_matrix m.now }
        requires variables { IsMatrixInVariables self.old.variables m.now }
        requires columns { AreGraphColumns self.old.variables m.now degree columns.items }
        requires size { length columns.items < 4294967296 }
        ensures same { HasSameRows self.old self.new }
        ensures elimination { IfOk result (λ found. IfSome found (IsEliminationOf self.old.variables degree m.now)) }
    {
        let all = sources(&columns, m.cols());
        let reducers = reducers(alloc, &columns, &self.leads)?;
        let known = reducers.iter().filter(|reducer| !reducer.is_none()).count();
        let mut elimination = Elimination::new(
            alloc,
            m,
            self.variables,
            degree,
            columns,
            reducers,
        )?;
        let wanted = all.saturating_sub(known);
        let rows = &self.rows;
        if elimination.take_generators(
            alloc,
            m,
            rows,
            generators,
            &mut self.waiting,
            wanted,
            strategy,
        )? && elimination.take_pairs(alloc, m, rows, &mut self.pairs, wanted, strategy)?
            && elimination.clear_found(alloc, m, rows)?
        {
            Ok(Some(elimination))
        } else {
            Ok(None)
        }
    }
}

/// How many terms a matrix has.
fn terms_of(m: &Matrix) -> usize {
    let mut terms: usize = 0;
    for i in 0..m.rows() {
        terms = terms.saturating_add(m.row(i).terms().len());
    }
    terms
}
