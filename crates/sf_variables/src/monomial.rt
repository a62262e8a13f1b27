ghost use Rattle.sf_variables.specs.MonomialLaws.{HasFirstVariables, HasMoreVariables, HasProductsInVariables, HasDivisorsInVariables, HasQuotientsInVariables, HasCommonMultiplesInVariables};

/// What is made of monomials over n variables is over n variables.
pub fn monomials_keep_to_variables()
    ensures variables { HasFirstVariables }
    ensures more { HasMoreVariables }
    ensures product { HasProductsInVariables }
    ensures divisor { HasDivisorsInVariables }
    ensures quotient { HasQuotientsInVariables }
    ensures multiple { HasCommonMultiplesInVariables }
{}
