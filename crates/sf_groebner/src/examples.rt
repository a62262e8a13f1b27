ghost use Rattle.sf_groebner.specs.Examples.{IsQuadricsMatrix, HasQuadricsGraphBasis, HasQuadricsBasis, HasQuadricsSyzygy, HasThirdRowLift, HasSmallQuadrics, HasLargeQuadrics, RefusesOtherCoefficients, RefusesUnitAsSyzygy};
ghost use Rattle.sf_groebner.specs.RefusedBases.{RefusesLaterLeadInTail, RefusesEarlierLeadInTail, RefusesOutsideRows, RefusesDoubledRow, RefusesZero, RefusesWithoutThirdRow, RefusesSmallerLeadFirst, RefusesGreaterDegreeFirst};
ghost use Rattle.sf_groebner.specs.ResolutionExamples.{HasKoszulResolution, RefusesOneVariable, HasQuadricsResolution, RefusesThirdRow};
ghost use Rattle.sf_groebner.specs.BoundsExamples.{HasSmallSizeAtBounds, RefusesOneMoreRow, RefusesOneMoreColumn, RefusesGreaterDegree, RefusesLesserDegree};
ghost use Rattle.sf_groebner.specs.HomologyExamples.{HasNoKoszulHomology, HasKoszulKernel, HasKoszulCokernel, RefusesNoCokernel};

/// The ideal of x^2 and x y + y^2: its graph, its reduced basis, its syzygies and a lift.
pub fn two_quadrics()
    ensures matrix { IsQuadricsMatrix }
    ensures graph { HasQuadricsGraphBasis }
    ensures span { HasQuadricsBasis }
    ensures syzygies { HasQuadricsSyzygy }
    ensures not_syzygy { RefusesUnitAsSyzygy }
    ensures lift { HasThirdRowLift }
    ensures not_lift { RefusesOtherCoefficients }
    ensures small { HasSmallQuadrics }
    ensures large { HasLargeQuadrics }
{}

/// Lists that aren't the reduced basis of that ideal, each of which meets all but one of the conditions.
pub fn refused_bases()
    ensures later_lead_in_tail { RefusesLaterLeadInTail }
    ensures earlier_lead_in_tail { RefusesEarlierLeadInTail }
    ensures outside_rows { RefusesOutsideRows }
    ensures doubled_row { RefusesDoubledRow }
    ensures zero { RefusesZero }
    ensures without_third_row { RefusesWithoutThirdRow }
    ensures smaller_lead_first { RefusesSmallerLeadFirst }
    ensures greater_degree_first { RefusesGreaterDegreeFirst }
{}

/// The resolution of the ideal of two variables, and that of the ideal of x^2 and x y + y^2.
pub fn resolutions_of_ideals()
    ensures variables { HasKoszulResolution }
    ensures one_variable { RefusesOneVariable }
    ensures quadrics { HasQuadricsResolution }
    ensures third_row { RefusesThirdRow }
{}

/// The homology of the Koszul complex of two variables: none in the middle, and the quotient by them at the end.
pub fn koszul_homology()
    ensures middle { HasNoKoszulHomology }
    ensures kernel { HasKoszulKernel }
    ensures cokernel { HasKoszulCokernel }
    ensures not_zero { RefusesNoCokernel }
{}

/// Matrices at the bounds within which bases are computed, and one row, column or degree past them.
pub fn bounds_on_both_sides()
    ensures at_bounds { HasSmallSizeAtBounds }
    ensures one_more_row { RefusesOneMoreRow }
    ensures one_more_column { RefusesOneMoreColumn }
    ensures greater_degree { RefusesGreaterDegree }
    ensures lesser_degree { RefusesLesserDegree }
{}
