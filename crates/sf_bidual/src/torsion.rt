ghost use Rattle.sf_bidual.specs.TorsionLaws.{HasNoHighestPart, HasTorsionInLowerColumns};

/// A module without maps to the ring but 0 has all of its purity filtration below the highest column.
pub fn torsion_stands_in_lower_columns()
    ensures lower { HasTorsionInLowerColumns }
    ensures part { HasNoHighestPart }
{}
