ghost use Rattle.sf_bidual.specs.HorseshoeLaws.{HasExactHorseshoes, HasHorseshoeSpans};

/// Two exact complexes of free modules, with lifts at their side, are an exact one, and its first map spans the sums of
/// what their first maps span.
pub fn horseshoes_are_exact()
    ensures exact { HasExactHorseshoes }
    ensures spans { HasHorseshoeSpans }
{}
