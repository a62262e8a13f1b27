ghost use Rattle.sf_algebra.specs.CombinationLaws.{HasCanonicalCombinations, SumsProductsWithRows, SumsProductsOfEntries, MultipliesRows, IsAdditiveInCoefficients, IsAdditiveInRows, TakesMultiples, TakesNegatives, NegatesWithMatrices, IsAssociativeWithProducts, PicksRows, KeepsWithUnitRows, AddsOverStackedRows};

/// Matrices act on row vectors from the right: a vector of coefficients times a matrix is the combination of its rows.
pub fn matrices_act()
    ensures canonical { HasCanonicalCombinations }
    ensures product_coefficients { SumsProductsWithRows }
    ensures entries { SumsProductsOfEntries }
    ensures one_coefficient { MultipliesRows }
    ensures coefficients { IsAdditiveInCoefficients }
    ensures rows { IsAdditiveInRows }
    ensures multiples { TakesMultiples }
    ensures negatives { TakesNegatives }
    ensures negated_rows { NegatesWithMatrices }
    ensures products { IsAssociativeWithProducts }
    ensures unit_coefficients { PicksRows }
    ensures unit_rows { KeepsWithUnitRows }
    ensures stacked_rows { AddsOverStackedRows }
{}
