ghost use Rattle.sf_bicomplex.specs.TotalComplexLaws.{HasColumnsInPlaces, HasColumnsOfImages, HasHighestColumns, HasTotalMaps, HasZeroSquares, KeepsColumns};

/// The total complex of a bicomplex of presented modules is a complex of presented modules, and its maps raise no column:
/// a column of an image is dv of the same column and dh of the next higher one.
pub fn total_complexes()
    ensures maps { HasTotalMaps }
    ensures squares { HasZeroSquares }
    ensures keeps { KeepsColumns }
    ensures columns { HasColumnsInPlaces }
    ensures images { HasColumnsOfImages }
    ensures highest { HasHighestColumns }
{}
