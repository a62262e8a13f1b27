ghost use Rattle.sf_bicomplex.specs.TensorPages.{HasExactResolutions, HasNothingAbove, HasTensorProductsAsFirstPage, HasTorAsSecondPage};

/// In the lowest row of the tensor bicomplex of two complexes of free modules the first page has the tensor products of the
/// modules of the first complex with the module that the second one presents, and the second page the homology of these:
/// where both complexes are resolutions, Tor. Then the first page has nothing in other rows.
pub fn tensor_pages_are_tor()
    ensures first { HasTensorProductsAsFirstPage }
    ensures second { HasTorAsSecondPage }
    ensures above { HasNothingAbove }
    ensures resolutions { HasExactResolutions }
{}
