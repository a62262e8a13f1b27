ghost use Rattle.sf_groebner.specs.ExistenceLaws.{HasGraphBasis, HasSpanBasis, HasSyzygyBasis, HasAnswer, HasNoOtherAnswer, HasDivisions, HasDivisionsByBases, HasOneRest, HasRestInside, HasReducedVector, HasLifts};
ghost use Rattle.sf_groebner.specs.ReductionLaws.{HasReductions, HasOneReduction, ReducesSpanToZero, LeavesLifts};
ghost use Rattle.sf_groebner.specs.PresentationExistenceLaws.{HasHomology, HasKernel, HasImage, HasCokernel, HasResolution};

/// Modulo a prime the graph, the span and the syzygies of a matrix have reduced bases.
pub fn reduced_bases_exist()
    ensures graph { HasGraphBasis }
    ensures span { HasSpanBasis }
    ensures syzygies { HasSyzygyBasis }
{}

/// For each limit and each matrix modulo a prime there is exactly one answer: the reduced basis of its graph, or that it is large.
pub fn each_matrix_has_one_answer()
    ensures exists { HasAnswer }
    ensures unique { HasNoOtherAnswer }
{}

/// Modulo a prime each vector has a division by monic rows. By the reduced basis of a span it has one rest, which is none for the
/// vectors of the span; so it differs by a vector of the span from one that is reduced by the relations.
pub fn each_vector_has_one_rest()
    ensures exists { HasDivisions }
    ensures by_bases { HasDivisionsByBases }
    ensures unique { HasOneRest }
    ensures inside { HasRestInside }
    ensures reduced { HasReducedVector }
{}

/// Modulo a prime each vector of a span has a lift.
pub fn each_vector_of_a_span_has_a_lift()
    ensures exists { HasLifts }
{}

/// Modulo a prime each vector is in one way the sum of one that is reduced by relations and of a combination of theirs with
/// reduced coefficients. The former is 0 exactly where the vector is in the span, and the latter are then its lift.
pub fn each_vector_has_one_reduction()
    ensures exists { HasReductions }
    ensures unique { HasOneReduction }
    ensures zero { ReducesSpanToZero }
    ensures lifts { LeavesLifts }
{}

/// Modulo a prime the places of complexes have homology, maps have kernels, images and cokernels, and presented modules have
/// resolutions of each length.
pub fn presentations_exist()
    ensures homology { HasHomology }
    ensures kernel { HasKernel }
    ensures image { HasImage }
    ensures cokernel { HasCokernel }
    ensures resolution { HasResolution }
{}
