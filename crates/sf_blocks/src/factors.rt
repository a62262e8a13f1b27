ghost use Rattle.sf_blocks.specs.KroneckerSumLaws.{KeepsFirstSums, KeepsSecondSums, KeepsFirstZeros, KeepsSecondZeros, KeepsMatricesBeside, CancelsCrossings, CancelsOtherCrossings};

/// Kronecker products are additive in both factors, and keep what stands side by side in the first.
pub fn sums_of_kronecker_products()
    ensures first_sums { KeepsFirstSums }
    ensures second_sums { KeepsSecondSums }
    ensures first_zeros { KeepsFirstZeros }
    ensures second_zeros { KeepsSecondZeros }
    ensures beside { KeepsMatricesBeside }
    ensures crossings { CancelsCrossings }
    ensures other_crossings { CancelsOtherCrossings }
{}
