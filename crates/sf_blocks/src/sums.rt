ghost use Rattle.sf_blocks.specs.MatrixSumLaws.{HasMatrixSums, AddsEntries, AddsCommutatively, AddsAssociatively, LeavesOutZero, CancelsNegative, AddsNegative, NegatesSums, AddsParts, DistributesFirstSum, DistributesSecondSum, TransposesSums, HasZeroMatrices, HasZeroEntries, TakesFirstZero, TakesSecondZero, TransposesZeros};

/// The matrices between two free modules are a commutative group, and products distribute over its sums.
pub fn matrix_sums()
    ensures matrices { HasMatrixSums }
    ensures entries { AddsEntries }
    ensures commutative { AddsCommutatively }
    ensures associative { AddsAssociatively }
    ensures zero { LeavesOutZero }
    ensures negative { CancelsNegative }
    ensures difference { AddsNegative }
    ensures negatives { NegatesSums }
    ensures parts { AddsParts }
    ensures first_factor { DistributesFirstSum }
    ensures second_factor { DistributesSecondSum }
    ensures transposes { TransposesSums }
{}

/// The matrix whose entries are 0.
pub fn zero_matrices()
    ensures matrices { HasZeroMatrices }
    ensures entries { HasZeroEntries }
    ensures first_factor { TakesFirstZero }
    ensures second_factor { TakesSecondZero }
    ensures transposes { TransposesZeros }
{}
