ghost use Rattle.sf_variables.specs.MatrixLaws.{HasIdentitiesInVariables, HasMatrixProductsInVariables, HasNegatedInVariables, HasTransposesInVariables, HasStacksInVariables, HasPartsInVariables, HasKroneckerProductsInVariables};

/// What is made of matrices over n variables is over n variables.
pub fn matrices_keep_to_variables()
    ensures identity { HasIdentitiesInVariables }
    ensures product { HasMatrixProductsInVariables }
    ensures negated { HasNegatedInVariables }
    ensures transposed { HasTransposesInVariables }
    ensures stacked { HasStacksInVariables }
    ensures part { HasPartsInVariables }
    ensures kronecker { HasKroneckerProductsInVariables }
{}
