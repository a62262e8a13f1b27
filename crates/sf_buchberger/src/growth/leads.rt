ghost use Rattle.std.specs.Prelude.{◌≡◌, ◌<◌, [], ◌∷◌, length, MatchOption};
ghost use Rattle.std.specs.List.{AllByRecursion};
ghost use Rattle.sf_algebra.specs.Vectors.{Vector};
ghost use Rattle.sf_groebner.specs.Criterion.{lead_at};
ghost use Rattle.sf_groebner.specs.Divisions.{tail_of};
ghost use Rattle.sf_groebner.specs.ReducedBases.{IsMonic};

use sf_matrix::{Matrix, Term, Vector};

/// The lead of a row of a matrix whose rows are monic.
pub(crate) fn lead_of(rows: &Matrix, i: usize) -> &Term
    requires within { i < length rows.now.rows }
    requires monic { AllByRecursion (λ (v : Vector). IsMonic v.terms) rows.now.rows }
    ensures lead { result.now.at ≡ lead_at rows.now.rows i }
{
    &rows.row(i).terms()[0]
}

/// The first term of a vector, or `None` exactly where the vector is 0.
pub(crate) fn first_term(v: &Vector) -> Option<&Term>
    ensures first { MatchOption result (v.now.terms ≡ []) (λ t. v.now.terms ≡ t.now ∷ tail_of v.now.terms) }
{
    v.terms().first()
}
