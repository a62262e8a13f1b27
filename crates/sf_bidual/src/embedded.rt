ghost use Rattle.sf_bidual.specs.EmbeddedExample.{HasEmbeddedBidual, HasEmbeddedParts, HasEmbeddedSubmodule, HasNoEmbeddedMaps, RefusesWithoutPoint};

/// A line with an embedded point has no maps to the ring but 0, and its purity filtration has the point in the lowest
/// column, the line in the next one, and nothing in the highest.
pub fn embedded_point()
    ensures bidual { HasEmbeddedBidual }
    ensures maps { HasNoEmbeddedMaps }
    ensures parts { HasEmbeddedParts }
    ensures submodule { HasEmbeddedSubmodule }
    ensures line { RefusesWithoutPoint }
{}
