ghost use Rattle.sf_blocks.specs.DirectSumLaws.{SpansDirectSums, HasZerosModuloBeside, HasZeroStacksModulo, HasZeroModuloAny};

/// Direct sums of relations, and what is zero modulo them.
pub fn direct_sums()
    ensures spans { SpansDirectSums }
    ensures beside { HasZerosModuloBeside }
    ensures stacks { HasZeroStacksModulo }
    ensures zeros { HasZeroModuloAny }
{}
