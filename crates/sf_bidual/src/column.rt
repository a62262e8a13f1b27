ghost use Rattle.sf_bidual.specs.ColumnLaws.{HasZeroColumnSquares, ResolvesBoundaries, ResolvesCycles, ResolvesHomology, ResolvesTerms};

/// Each column of a Cartan-Eilenberg resolution resolves the module of the complex there, its first block the boundaries,
/// its first two the cycles, and the second one the homology.
pub fn columns_are_resolutions()
    ensures boundaries { ResolvesBoundaries }
    ensures cycles { ResolvesCycles }
    ensures homology { ResolvesHomology }
    ensures terms { ResolvesTerms }
    ensures squares { HasZeroColumnSquares }
{}
