ghost use Rattle.sf_groebner.specs.LiftLaws.{HasOneLift, HasReducedFirstBlocks, HasSpanningRelations, HasReducedCoordinates, HasOneReducedVector};

/// A vector has at most one lift, and the first block of a lift over a stack is reduced.
pub fn lifts_are_unique()
    ensures unique { HasOneLift }
    ensures first_blocks { HasReducedFirstBlocks }
{}

/// Modulo a prime the minimal relations of generators modulo a base span all their relations, and reduce the first block of a
/// lift over both; and two vectors of one degree that are reduced by relations and differ by one of their span are equal.
pub fn coordinates_are_unique()
    ensures relations { HasSpanningRelations }
    ensures coordinates { HasReducedCoordinates }
    ensures unique { HasOneReducedVector }
{}
