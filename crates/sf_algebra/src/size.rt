ghost use Rattle.sf_algebra.specs.SizeLaws.{IsDecidedByRange};

/// Whether the size of a matrix is within the bounds for which bases are computed is decided by its numbers of rows and
/// columns, and by bounds of its degrees, each of which is one of them or 0.
pub fn sizes_are_decided()
    ensures { IsDecidedByRange }
{}
