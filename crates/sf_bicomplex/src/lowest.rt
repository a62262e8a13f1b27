ghost use Rattle.sf_bicomplex.specs.LowestRows.{HasLowestCycles, HasLowestDifferentials, HasSecondBoundaries, HasSecondCycles};

/// In a lowest row, below which nothing stands, all vectors are cycles of the first page, whose differential is dh, and the
/// second page is the homology of dh on the first one.
pub fn lowest_rows_have_second_pages()
    ensures cycles { HasLowestCycles }
    ensures differentials { HasLowestDifferentials }
    ensures second_cycles { HasSecondCycles }
    ensures second_boundaries { HasSecondBoundaries }
{}
