ghost use Rattle.sf_variables.specs.LiftLaws.{HasCoefficientsInVariables, HasLiftsInVariables, HasCoordinatesInVariables, HasRestsInVariables, HasReducedVectorsInVariables};

/// Lifts, coordinates, rests and reduced vectors of vectors over n variables are over n variables,
/// and coefficients may be taken so.
pub fn lifts_keep_to_variables()
    ensures coefficients { HasCoefficientsInVariables }
    ensures lift { HasLiftsInVariables }
    ensures coordinates { HasCoordinatesInVariables }
    ensures rest { HasRestsInVariables }
    ensures reduced { HasReducedVectorsInVariables }
{}
