ghost use Rattle.sf_bidual.specs.ExistenceLaws.{HasBidual, HasCartanEilenberg, HasOneCartanEilenberg};

/// Modulo a prime a complex of free modules has one Cartan-Eilenberg resolution, and a presented module has what its bidual
/// bicomplex is made of.
pub fn cartan_eilenberg_resolutions_exist()
    ensures complexes { HasCartanEilenberg }
    ensures one { HasOneCartanEilenberg }
    ensures modules { HasBidual }
{}
