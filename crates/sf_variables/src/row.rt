ghost use Rattle.sf_variables.specs.RowLaws.{HasPolynomialSumsInVariables, HasPolynomialProductsInVariables, HasSumsInVariables, HasDifferencesInVariables, HasNegativesInVariables, HasMultiplesInVariables, HasCombinationsInVariables, HasVectorPartsInVariables};

/// What is made of polynomials and of rows over n variables is over n variables.
pub fn rows_keep_to_variables()
    ensures polynomial_sum { HasPolynomialSumsInVariables }
    ensures polynomial_product { HasPolynomialProductsInVariables }
    ensures sum { HasSumsInVariables }
    ensures difference { HasDifferencesInVariables }
    ensures negative { HasNegativesInVariables }
    ensures multiple { HasMultiplesInVariables }
    ensures combination { HasCombinationsInVariables }
    ensures part { HasVectorPartsInVariables }
{}
