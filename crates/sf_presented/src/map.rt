ghost use Rattle.sf_presented.specs.MapLaws.{SendsSpanByRows, HasComposedModuleMaps, HasComposedSquares, HasComposedChainMaps};

/// A matrix is a map of presented modules where it sends each row of relations into the span of relations.
pub fn maps_are_decided_by_rows()
    ensures rows { SendsSpanByRows }
{}

/// Products of maps of presented modules, of squares of maps and of maps of complexes are such maps.
pub fn maps_compose()
    ensures modules { HasComposedModuleMaps }
    ensures squares { HasComposedSquares }
    ensures complexes { HasComposedChainMaps }
{}
