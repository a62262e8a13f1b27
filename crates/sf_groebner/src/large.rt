ghost use Rattle.sf_groebner.specs.LargeLaws.{NeedsNewLeads, HasNoMoreNeededLeads, IsLargeAboveLimit, IsLargeBeyondSize, HasReasonToBeLarge};

/// A lead that each reduced basis of the graph has is found before the basis is: where rows are complete below a degree, each
/// lead of that degree that none of theirs divides is one. One above the limit, or too many of them, show that a matrix is
/// large; and a large matrix of a small size over a field has the one or the other.
pub fn needed_leads_decide_large()
    ensures needed { NeedsNewLeads }
    ensures count { HasNoMoreNeededLeads }
    ensures above { IsLargeAboveLimit }
    ensures beyond { IsLargeBeyondSize }
    ensures reason { HasReasonToBeLarge }
{}
