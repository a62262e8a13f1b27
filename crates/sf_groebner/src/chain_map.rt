ghost use Rattle.sf_groebner.specs.HomologyLaws.{HasIdentityChainMaps, ActsOnHomology, ActsOnKernels, ActsOnImages, ActsOnCokernels, KeepsEqualClasses};

/// Maps of complexes, of which the identities are some, act on homology, and squares of maps on kernels, images and cokernels;
/// and a matrix that takes one span into another takes what is equal modulo the one to what is equal modulo the other.
pub fn homology_of_maps()
    ensures identities { HasIdentityChainMaps }
    ensures homology { ActsOnHomology }
    ensures kernels { ActsOnKernels }
    ensures images { ActsOnImages }
    ensures cokernels { ActsOnCokernels }
    ensures classes { KeepsEqualClasses }
{}
