ghost use Rattle.sf_bicomplex.specs.RefusedExamples.{RefusesCommutingSquares, RefusesDoubledHomotopy, RefusesExchangedGenerators, RefusesPartOfOtherColumn, RefusesUnpairedCycles, RefusesUnsignedComplex};

/// What isn't a complex, a bicomplex, the homology of one, a part of it, or a homotopy, each for one reason.
pub fn wrong_examples_are_refused()
    ensures complex { RefusesUnsignedComplex }
    ensures bicomplex { RefusesCommutingSquares }
    ensures cycles { RefusesUnpairedCycles }
    ensures generators { RefusesExchangedGenerators }
    ensures column { RefusesPartOfOtherColumn }
    ensures homotopy { RefusesDoubledHomotopy }
{}
