ghost use Rattle.std.specs.Prelude.{◌≤◌};

use sf_matrix::{Matrix, Vector};
use sf_mono::Mono;

/// The greatest number of variables.
const VARIABLES: usize = 6;

/// The most places of a degree.
const MOST_PLACES: usize = 500_000;

/// A degree may have so many places, and so many more for each term that there is. Where rows have far fewer terms than
/// there are places, divisions term by term are faster.
const FEW_PLACES: usize = 4_096;

const PLACES_OF_A_TERM: usize = 4;

/// How many places a degree may have.
pub(crate) fn most_places(m: &Matrix) -> usize
    ensures most { result ≤ 500_000 }
{
    let mut terms: usize = 0;
    for i in 0..m.rows() {
        terms = terms.saturating_add(m.row(i).terms().len());
    }
    terms
        .saturating_mul(PLACES_OF_A_TERM)
        .saturating_add(FEW_PLACES)
        .min(MOST_PLACES)
}

/// How many variables there are up to the last one that a matrix has.
pub(crate) fn variables_of(m: &Matrix) -> usize
    ensures few { result ≤ VARIABLES }
{
    let mut variables = 0;
    for i in 0..m.rows() {
        variables = variables_with(variables, m.row(i));
    }
    variables
}

/// How many variables there are up to the last one of a vector, or so many where that is less.
fn variables_with(variables: usize, v: &Vector) -> usize
    requires few { variables ≤ VARIABLES }
    ensures few { result ≤ VARIABLES }
{
    let mut most = variables;
    for term in v.terms() {
        most = most.max(last_variable(term.monomial));
    }
    most
}

/// How many variables there are up to the last one of a monomial.
fn last_variable(monomial: Mono) -> usize
    ensures few { result ≤ VARIABLES }
{
    for k in 0..VARIABLES {
        if monomial.exponent(VARIABLES - 1 - k) != 0 {
            return VARIABLES - k;
        }
    }
    0
}
