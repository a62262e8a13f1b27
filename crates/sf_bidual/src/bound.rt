ghost use Rattle.sf_bidual.specs.BoundLaws.{EndsAfterVariables, HasBidualOfVariables, HasOnePurityFiltration, HasPurityFiltration};

/// Over n variables, n at least 1, no resolution in a Cartan-Eilenberg resolution has a step past n. So each presented module
/// over them has a bidual bicomplex of n + 1 columns, and a purity filtration, and only one.
pub fn purity_filtrations_exist()
    ensures end { EndsAfterVariables }
    ensures modules { HasBidualOfVariables }
    ensures filtrations { HasPurityFiltration }
    ensures one { HasOnePurityFiltration }
{}
