ghost use Rattle.std.specs.Prelude.{◌↔◌, IsTrue};
ghost use Rattle.sf_algebra.specs.Bounds.{Fits};

const GREATEST_SIZE: u64 = 4096;

const GREATEST_DEGREE: i64 = 8000;

/// Whether a matrix with so many rows and columns, whose degrees are from `low` to `high`, is within the bounds of
/// size and degrees for which bases are computed.
pub fn fits(rows: u64, cols: u64, low: i64, high: i64) -> bool
    ensures { IsTrue result ↔ Fits rows cols low high }
{
    rows <= GREATEST_SIZE
        && cols <= GREATEST_SIZE
        && -GREATEST_DEGREE <= low
        && high <= GREATEST_DEGREE
}
