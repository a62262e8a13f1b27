ghost use Rattle.sf_presented.specs.KeptLaws.{HasOneProofOfLift, HasOneMereSpanBasis, HasOneMereMinimalSpan, HasOneMereMinimalRelations, HasOneMereHomology, HasOneMereKernel, HasOneMereImage, HasOneMereCokernel, HasOneMereFirstStep, HasOneMereNextStep, HasOneMereResolution, HasOneListOfMereCoordinates, KeepsSpanBasis, KeepsMinimalSpan, KeepsMinimalRelations, KeepsVectorsOfSpan, KeepsReducedVectors, KeepsHomology, KeepsKernel, KeepsImage, KeepsCokernel, KeepsFirstStep, KeepsNextStep, KeepsResolution, KeepsCoordinates, KeepsModuleMaps, KeepsInverses};

/// That coefficients are a lift has at most one proof.
pub fn lifts_have_one_proof()
    ensures lift { HasOneProofOfLift }
{}

/// A mere fact is of one value alone.
pub fn mere_facts_are_unique()
    ensures span_basis { HasOneMereSpanBasis }
    ensures minimal_span { HasOneMereMinimalSpan }
    ensures minimal_relations { HasOneMereMinimalRelations }
    ensures homology { HasOneMereHomology }
    ensures kernel { HasOneMereKernel }
    ensures image { HasOneMereImage }
    ensures cokernel { HasOneMereCokernel }
    ensures first_step { HasOneMereFirstStep }
    ensures next_step { HasOneMereNextStep }
    ensures resolution { HasOneMereResolution }
    ensures coordinates { HasOneListOfMereCoordinates }
{}

/// Modulo a prime a mere fact gives the fact back.
pub fn mere_facts_hold()
    ensures span_basis { KeepsSpanBasis }
    ensures minimal_span { KeepsMinimalSpan }
    ensures minimal_relations { KeepsMinimalRelations }
    ensures homology { KeepsHomology }
    ensures kernel { KeepsKernel }
    ensures image { KeepsImage }
    ensures cokernel { KeepsCokernel }
    ensures first_step { KeepsFirstStep }
    ensures next_step { KeepsNextStep }
    ensures resolution { KeepsResolution }
    ensures inside { KeepsVectorsOfSpan }
    ensures reduced { KeepsReducedVectors }
    ensures coordinates { KeepsCoordinates }
    ensures maps { KeepsModuleMaps }
    ensures inverses { KeepsInverses }
{}
