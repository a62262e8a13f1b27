ghost use Rattle.sf_blocks.specs.BlockListLaws.{HasMatricesSideBySide, HasStacksOfAll, MultipliesBlocksOfLists, MultipliesSideBySide, MultipliesStacksOfAll, TransposesSideBySide, TransposesStacksOfAll};

/// Any number of matrices side by side, or one above another.
pub fn lists_of_blocks()
    ensures side_by_side { HasMatricesSideBySide }
    ensures stacks { HasStacksOfAll }
    ensures products { MultipliesBlocksOfLists }
    ensures second_factor { MultipliesSideBySide }
    ensures first_factor { MultipliesStacksOfAll }
    ensures transposes { TransposesSideBySide }
    ensures transposed_stacks { TransposesStacksOfAll }
{}
