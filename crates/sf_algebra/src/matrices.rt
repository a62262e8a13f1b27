ghost use Rattle.sf_algebra.specs.KroneckerLaws.{HasKroneckerProducts, MultipliesEntries, RepeatsSecondFactor, SpreadsFirstFactor, LeavesOutRing, KeepsIdentities, KeepsProducts, KeepsTransposes, KeepsStacks, TakesFirstNegative, TakesSecondNegative};
ghost use Rattle.sf_algebra.specs.MatrixProductLaws.{HasMatrixProducts, MultipliesRowsByColumns, HasMatrixIdentities, LeavesOutFirstIdentity, LeavesOutSecondIdentity, MultipliesAssociatively};
ghost use Rattle.sf_algebra.specs.NegativeLaws.{HasMatrixNegatives, NegatesEntries, NegatesBack, NegatesWithFirstFactor, NegatesWithSecondFactor, TransposesNegatives};
ghost use Rattle.sf_algebra.specs.PartLaws.{HasMatrixParts, PicksEntries, HasWholeParts, HasPartsOfParts, MultipliesParts, TransposesParts};
ghost use Rattle.sf_algebra.specs.StackLaws.{HasMatrixStacks, HasFirstRows, HasLastRows, StacksParts, HasAssociativeStacks, MultipliesStacks, NegatesStacks};
ghost use Rattle.sf_algebra.specs.TransposeLaws.{HasMatrixTransposes, ExchangesRowsAndColumns, TransposesBack, TransposesIdentities, ReversesProducts};

/// The graded matrices are the arrows of a category: rows go to columns, and the product is the composition.
pub fn matrix_products()
    ensures matrices { HasMatrixProducts }
    ensures entries { MultipliesRowsByColumns }
    ensures identities { HasMatrixIdentities }
    ensures first_identity { LeavesOutFirstIdentity }
    ensures second_identity { LeavesOutSecondIdentity }
    ensures associative { MultipliesAssociatively }
{}

/// The transpose goes between the dual free modules, the other way, and undoes itself.
pub fn matrix_transposes()
    ensures matrices { HasMatrixTransposes }
    ensures entries { ExchangesRowsAndColumns }
    ensures twice { TransposesBack }
    ensures identities { TransposesIdentities }
    ensures products { ReversesProducts }
{}

/// The rows of one matrix above those of another over the same free module.
pub fn matrix_stacks()
    ensures matrices { HasMatrixStacks }
    ensures first_rows { HasFirstRows }
    ensures last_rows { HasLastRows }
    ensures parts { StacksParts }
    ensures associative { HasAssociativeStacks }
    ensures products { MultipliesStacks }
    ensures negatives { NegatesStacks }
{}

/// A range of rows in a range of columns.
pub fn matrix_parts()
    ensures matrices { HasMatrixParts }
    ensures entries { PicksEntries }
    ensures whole { HasWholeParts }
    ensures parts { HasPartsOfParts }
    ensures products { MultipliesParts }
    ensures transposes { TransposesParts }
{}

/// The negative undoes itself, and may be taken of either factor of a product.
pub fn matrix_negatives()
    ensures matrices { HasMatrixNegatives }
    ensures entries { NegatesEntries }
    ensures twice { NegatesBack }
    ensures first_factor { NegatesWithFirstFactor }
    ensures second_factor { NegatesWithSecondFactor }
    ensures transposes { TransposesNegatives }
{}

/// The Kronecker product is a functor in both factors, and commutes with transposes.
pub fn kronecker_products()
    ensures matrices { HasKroneckerProducts }
    ensures entries { MultipliesEntries }
    ensures first_identity { RepeatsSecondFactor }
    ensures second_identity { SpreadsFirstFactor }
    ensures ring { LeavesOutRing }
    ensures identities { KeepsIdentities }
    ensures products { KeepsProducts }
    ensures transposes { KeepsTransposes }
    ensures stacks { KeepsStacks }
    ensures first_negative { TakesFirstNegative }
    ensures second_negative { TakesSecondNegative }
{}
