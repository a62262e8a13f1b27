ghost use Rattle.sf_blocks.specs.SideBySideLaws.{HasMatricesBeside, HasFirstEntries, HasLastEntries, HasFirstColumns, HasLastColumns, JoinsParts, JoinsAssociatively, LeavesOutNoColumns, JoinsZeros, NegatesBeside, AddsBeside, StacksBeside, CombinesBeside, MultipliesBeside, MultipliesByStack, TransposesBeside, TransposesStacks};

/// The rows of one matrix, each with the row of another at its position behind it.
pub fn matrices_side_by_side()
    ensures matrices { HasMatricesBeside }
    ensures first_entries { HasFirstEntries }
    ensures last_entries { HasLastEntries }
    ensures first_columns { HasFirstColumns }
    ensures last_columns { HasLastColumns }
    ensures parts { JoinsParts }
    ensures associative { JoinsAssociatively }
    ensures no_columns { LeavesOutNoColumns }
    ensures zeros { JoinsZeros }
    ensures negatives { NegatesBeside }
    ensures sums { AddsBeside }
    ensures stacks { StacksBeside }
    ensures combinations { CombinesBeside }
    ensures second_factor { MultipliesBeside }
    ensures first_factor { MultipliesByStack }
    ensures transposes { TransposesBeside }
    ensures transposed_stacks { TransposesStacks }
{}
