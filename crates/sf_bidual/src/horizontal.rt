ghost use Rattle.sf_bidual.specs.HorizontalLaws.{CommuteWithAugmentations, CommuteWithDifferentials, HasHorizontalMatrices, HasZeroHorizontalSquares};

/// The horizontal maps of a Cartan-Eilenberg resolution commute with its differentials and augmentations, and give 0 one
/// after the other.
pub fn horizontal_maps_commute()
    ensures matrices { HasHorizontalMatrices }
    ensures differentials { CommuteWithDifferentials }
    ensures augmentations { CommuteWithAugmentations }
    ensures squares { HasZeroHorizontalSquares }
{}
