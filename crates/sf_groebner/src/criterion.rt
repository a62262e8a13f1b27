ghost use Rattle.sf_groebner.specs.CriterionLaws.{CancelsLeads, DropsChains, HasPairSyzygies, IsBuchbergersCriterion, IsCriterionUpToDegree, LeavesNoRests, ReducesByDivisions, SpansSyzygies, TakesEitherOrder};

/// Monic rows are a Gröbner basis of what they span exactly where the S-vectors of their pairs reduce to zero.
pub fn pairs_decide_bases()
    ensures criterion { IsBuchbergersCriterion }
    ensures up_to_degree { IsCriterionUpToDegree }
    ensures leads { CancelsLeads }
    ensures either_order { TakesEitherOrder }
    ensures divisions { ReducesByDivisions }
    ensures rests { LeavesNoRests }
    ensures chains { DropsChains }
{}

/// Each pair of rows that reduces to zero gives a syzygy, and these span all syzygies of the rows.
pub fn pairs_give_syzygies()
    ensures syzygies { HasPairSyzygies }
    ensures span { SpansSyzygies }
{}
