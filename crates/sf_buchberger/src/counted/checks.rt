ghost use Rattle.std.specs.Prelude.{◌≤◌, ◌<◌, ℕ, length, IsTrue, Contains};
ghost use Rattle.std.specs.List.{AllByRecursion};
ghost use Rattle.sf_algebra.specs.Monomials.{VARIABLES};
ghost use Rattle.sf_algebra.specs.Vectors.{Vector};
ghost use Rattle.sf_groebner.specs.Criterion.{IsPair};
ghost use Rattle.sf_counting.specs.CountLaws.{AreFull, AreGraphRows, pair_degree};
ghost use Rattle.sf_counting.specs.Counts.{IsFull};
ghost use Rattle.sf_variables.specs.Variables.{IsInVariables, IsMatrixInVariables, IsVectorInVariables};

use crate::counted::state::Counting;
use crate::growth::leads::lead_of;
use crate::growth::pairing::degree_by_lead;
use crate::growth::steps::facts;
use sf_matrix::{List, Matrix, Vector};
use sf_mono::Mono;

/// The greatest number of variables.
const VARIABLES: usize = 6;

/// The greatest sum of the exponents of a monomial.
const GREATEST_SUM: u32 = 65_535;

/// How many variables there are up to the last one that a matrix has.
pub(crate) fn variables_of(m: &Matrix) -> usize
    ensures few { result ≤ VARIABLES }
    ensures variables { IsMatrixInVariables result m.now }
{
    let mut variables = 0;
    for i in 0..m.rows() {
        variables = variables_with(variables, m.row(i));
    }
    variables
}

/// How many variables there are up to the last one of a vector, or so many where that is less.
fn variables_with(variables: usize, v: &Vector) -> usize
    requires few { variables ≤ VARIABLES }
    ensures few { result ≤ VARIABLES }
    ensures more { variables ≤ result }
    ensures variables { IsVectorInVariables result v.now }
{
    let mut most = variables;
    for term in v.terms() {
        most = most.max(last_variable(term.monomial));
    }
    most
}

/// How many variables there are up to the last one of a monomial.
fn last_variable(monomial: Mono) -> usize
    ensures few { result ≤ VARIABLES }
    ensures variables { IsInVariables result monomial }
{
    for k in 0..VARIABLES {
        if monomial.exponent(VARIABLES - 1 - k) != 0 {
            return VARIABLES - k;
        }
    }
    0
}

impl Counting {
    /// Whether all leads are found in the degree of each row of `m` and of each pair of elements.
    pub(crate) fn covers(&self, m: &Matrix) -> bool
        requires rows { AreGraphRows self.now.variables m.now self.now.rows.rows }
        requires full { AllByRecursion (IsFull self.now.variables m.now self.now.rows.rows) self.now.full }
        ensures full { IsTrue result → AreFull self.now.variables m.now self.now.rows.rows (λ _. Unit {0}) }
    {
        covers_rows(&self.full, m) && self.covers_pairs(m)
    }

    /// Whether the degree of each pair of elements is among those in which all leads are found.
    fn covers_pairs(&self, m: &Matrix) -> bool
        requires rows { AreGraphRows self.now.variables m.now self.now.rows.rows }
        ensures covered { IsTrue result → (i j : ℕ) → IsPair self.now.rows.rows i j → Contains self.now.full (pair_degree m.now self.now.rows.rows i j) }
    {
        for j in 0..self.rows.rows() {
            if !self.covers_pairs_with(m, j) {
                return false;
            }
        }
        true
    }

    /// Whether that of each pair with an element and an earlier one is.
    fn covers_pairs_with(&self, m: &Matrix, j: usize) -> bool
        requires rows { AreGraphRows self.now.variables m.now self.now.rows.rows }
        requires within { j < length self.now.rows.rows }
        ensures covered { IsTrue result → (i : ℕ) → IsPair self.now.rows.rows i j → Contains self.now.full (pair_degree m.now self.now.rows.rows i j) }
    {
        for i in 0..j {
            if !self.covers_pair(m, i, j) {
                return false;
            }
        }
        true
    }

    /// Whether that of a pair is, where the leads stand at one position.
    fn covers_pair(&self, m: &Matrix, i: usize, j: usize) -> bool
        requires rows { AreGraphRows self.now.variables m.now self.now.rows.rows }
        requires earlier { i < j }
        requires within { j < length self.now.rows.rows }
        ensures covered { IsTrue result → IsPair self.now.rows.rows i j → Contains self.now.full (pair_degree m.now self.now.rows.rows i j) }
    {
        facts(m);
        let (first, second) = (lead_of(&self.rows, i), lead_of(&self.rows, j));
        if first.position != second.position {
            return true;
        }
        if first.monomial.sum() + second.monomial.sum() > GREATEST_SUM {
            return false;
        }
        let lcm = first.monomial.lcm(second.monomial);
        let degree = degree_by_lead(self.rows.row(j).degree(), second.monomial, lcm);
        match i32::try_from(degree) {
            Ok(degree) => self.full.as_slice().contains(&degree),
            Err(_) => false,
        }
    }
}

/// Whether the degree of each row is among some degrees.
fn covers_rows(full: &List<i32>, m: &Matrix) -> bool
    ensures covered { IsTrue result → AllByRecursion (λ (v : Vector). Contains full.now v.degree) m.now.rows }
{
    for i in 0..m.rows() {
        if !full.as_slice().contains(&m.row(i).degree()) {
            return false;
        }
    }
    true
}
