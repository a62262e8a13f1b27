ghost use Rattle.sf_bidual.specs.PurityExample.{HasNoVariableMaps, HasVariableBidual, HasVariableParts, RefusesVariableAsFree};

/// The residue field of one variable has no maps to the ring but 0, and its purity filtration stands in one column, where it
/// is the whole module.
pub fn one_variable()
    ensures bidual { HasVariableBidual }
    ensures maps { HasNoVariableMaps }
    ensures parts { HasVariableParts }
    ensures free { RefusesVariableAsFree }
{}
