ghost use Rattle.sf_counting.specs.CountLaws.{HasCountedBases, HasNoMoreLeads, IsCompleteWhereFull, NeedsLeadsPastFullDegrees, StaysFull};

/// The graph of a matrix is free, with as many places of each degree as there are coefficients, so that counting tells
/// where all leads are found.
pub fn counts_decide_bases()
    ensures bases { HasCountedBases }
    ensures leads { HasNoMoreLeads }
    ensures complete { IsCompleteWhereFull }
    ensures needed { NeedsLeadsPastFullDegrees }
    ensures more { StaysFull }
{}
