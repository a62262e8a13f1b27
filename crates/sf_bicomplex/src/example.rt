ghost use Rattle.sf_bicomplex.specs.ResolvedExample.{GivesQuotient, HasClassThatIsSet, HasMultipleThatBounds, IsResolvingBicomplex, ResolvesExample};
ghost use Rattle.sf_bicomplex.specs.TensorExample.{HasIdentityFromHomology, HasIdentityToHomology, HasLastResiduePage, HasNoResidueDifferential, HasResidueHomology, HasResidueLeadingColumns, HasResiduePage, HasResiduePageHomology, HasResidueParts, IsKoszulComplex, IsResidueBicomplex};
ghost use Rattle.sf_bicomplex.specs.TailExample.{HasTailBoundary, HasTailCycle, HasTailDifferential, IsTailBicomplex, RefusesNoTail};

/// A bicomplex whose differential from column 2 to column 0 needs a tail in column 1.
pub fn tail()
    ensures bicomplex { IsTailBicomplex }
    ensures differential { HasTailDifferential }
    ensures no_tail { RefusesNoTail }
    ensures cycle { HasTailCycle }
    ensures boundary { HasTailBoundary }
{}

/// A bicomplex whose rows resolve a complex that presents R(1)/x: a class there that isn't zero is set as one of the total
/// complex that isn't.
pub fn row_resolution()
    ensures bicomplex { IsResolvingBicomplex }
    ensures resolves { ResolvesExample }
    ensures class { HasClassThatIsSet }
    ensures multiple { HasMultipleThatBounds }
    ensures quotient { GivesQuotient }
{}

/// The tensor bicomplex of the residue field of two variables with itself: page 2 at one spot, which is page 3 and the
/// homology of page 2 by the identity; a differential of page 2 that is zero through two tails; and the homology of the
/// total complex in degree 1, whose generators that page leads, and which is all in column 1.
pub fn residue_field()
    ensures complex { IsKoszulComplex }
    ensures bicomplex { IsResidueBicomplex }
    ensures page { HasResiduePage }
    ensures differential { HasNoResidueDifferential }
    ensures last_page { HasLastResiduePage }
    ensures homology { HasResiduePageHomology }
    ensures to_homology { HasIdentityToHomology }
    ensures from_homology { HasIdentityFromHomology }
    ensures leading { HasResidueLeadingColumns }
    ensures total { HasResidueHomology }
    ensures parts { HasResidueParts }
{}
