ghost use Rattle.sf_groebner.specs.CutLaws.{HasSpanOfValues, HasSyzygiesOfOthers, HasLiftsOfValues};
ghost use Rattle.sf_groebner.specs.GraphLaws.{HasGraphVectors, HasOneGraphVector, HasCoefficients, IsSpanOfGraphRows};

/// For each coefficients c the graph of a matrix M has exactly one vector, which is (c M, c); and it has no others.
/// Modulo a number above 1 it is the span of the rows of M, each with the unit vector of its position behind it.
pub fn graph_vectors_are_pairs()
    ensures exists { HasGraphVectors }
    ensures unique { HasOneGraphVector }
    ensures coefficients { HasCoefficients }
    ensures rows { IsSpanOfGraphRows }
{}

/// The reduced basis of the graph of a matrix gives those of its span and its syzygies, and the lifts of the first.
pub fn graph_parts()
    ensures span { HasSpanOfValues }
    ensures syzygies { HasSyzygiesOfOthers }
    ensures lifts { HasLiftsOfValues }
{}
