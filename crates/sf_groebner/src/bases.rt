ghost use Rattle.sf_groebner.specs.BasisLaws.{HasOneSpanBasis, HasOneSyzygyBasis, HasOneGraphBasis};
ghost use Rattle.sf_groebner.specs.OwnSpanLaws.{IsBasisOfOwnSpan, IsSyzygyBasisOfOwnSpan, SpansSpan, SpansAllSyzygies, HasSmallValues, HasSmallSyzygies, HasSmallFirstBlocks};

/// The span, the syzygies and the graph of a matrix have each at most one reduced basis.
pub fn reduced_bases_are_unique()
    ensures span { HasOneSpanBasis }
    ensures syzygies { HasOneSyzygyBasis }
    ensures graph { HasOneGraphBasis }
{}

/// The reduced basis of a span, or of syzygies, is that of its own span, and over a field spans what it is a basis of. The values and
/// the syzygies of a small matrix, and the first blocks of the syzygies of a small stack, are small reduced bases.
pub fn bases_are_bases_of_their_spans()
    ensures span { IsBasisOfOwnSpan }
    ensures syzygies { IsSyzygyBasisOfOwnSpan }
    ensures spans { SpansSpan }
    ensures spans_syzygies { SpansAllSyzygies }
    ensures small_values { HasSmallValues }
    ensures small_syzygies { HasSmallSyzygies }
    ensures small_blocks { HasSmallFirstBlocks }
{}
