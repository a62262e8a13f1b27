ghost use Rattle.sf_homotopy.specs.HomotopyLaws.{HasContractions, TransposesHomotopies, IsExactByHomotopy, HasZeroProducts, HasExactTransposes, HasExactIdentities};

/// An exact complex of free modules that ends in a free module contracts at each place. The transpose of a homotopy is
/// one of the transposed maps, and where there is one, a complex is exact: so the transposes are exact too.
pub fn exact_complexes_contract()
    ensures contractions { HasContractions }
    ensures transposes { TransposesHomotopies }
    ensures exact { IsExactByHomotopy }
    ensures zero { HasZeroProducts }
    ensures exact_transposes { HasExactTransposes }
    ensures identities { HasExactIdentities }
{}
