ghost use Rattle.sf_bidual.specs.BidualLaws.{IsBidualBicomplex};

/// The bidual bicomplex of a presented module is a bicomplex.
pub fn bidual_is_a_bicomplex()
    ensures bicomplex { IsBidualBicomplex }
{}
