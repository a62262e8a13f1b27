ghost use Rattle.sf_bicomplex.specs.ResolvedHomology.{HasInverseSetMaps, HasOneSetHomology};
ghost use Rattle.sf_bicomplex.specs.ResolvedRows.{HasBoundariesThatAreSet, HasCyclesThatAreSet, SetsComplex};

/// Where the rows of a bicomplex of free modules are exact but for the highest column, and a complex is set there, the total
/// complex has the homology of that complex; modulo a prime by inverse matrices.
pub fn resolved_rows_give_homology()
    ensures sets { SetsComplex }
    ensures boundaries { HasBoundariesThatAreSet }
    ensures cycles { HasCyclesThatAreSet }
    ensures homology { HasOneSetHomology }
    ensures maps { HasInverseSetMaps }
{}
