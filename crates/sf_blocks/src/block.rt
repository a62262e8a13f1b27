ghost use Rattle.sf_blocks.specs.BlockLaws.{HasBlockMatrices, HasBlockRows, MultipliesBlocks, AddsBlocks, NegatesBlocks, TransposesBlocks, HasZerosBeside, HasZeroStacks, AddsStacks, HasTriangles, MultipliesTriangles, HasZeroTriangles};

/// Matrices of two by two blocks; those whose upper right block is zero are triangles.
pub fn two_by_two_blocks()
    ensures matrices { HasBlockMatrices }
    ensures rows { HasBlockRows }
    ensures products { MultipliesBlocks }
    ensures sums { AddsBlocks }
    ensures negatives { NegatesBlocks }
    ensures transposes { TransposesBlocks }
    ensures zeros_beside { HasZerosBeside }
    ensures zero_stacks { HasZeroStacks }
    ensures stacked_sums { AddsStacks }
    ensures triangles { HasTriangles }
    ensures triangle_products { MultipliesTriangles }
    ensures zero_triangles { HasZeroTriangles }
{}
