ghost use Rattle.sf_bidual.specs.FactorLaws.{HasFactoredPart};

/// A module without maps to the ring but 0, whose first dual map is some matrix times a basis of the cycles of the dual
/// complex at place 1, has the span of the transpose of that matrix below its two highest columns.
pub fn factors_stand_below_two_columns()
    ensures part { HasFactoredPart }
{}
