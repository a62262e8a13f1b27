ghost use Rattle.std.specs.Prelude.{◌↔◌, ◌++◌, IsTrue};
ghost use Rattle.sf_algebra.specs.Bounds.{AreFrom, HasSmallSize};
ghost use Rattle.sf_algebra.specs.Matrices.{row_degrees};

use crate::bounds::fits;
use crate::matrix::Matrix;

/// Whether the size and the degrees of a matrix are within the bounds for which bases are computed.
pub fn has_small_size(m: &Matrix) -> bool
    ensures { IsTrue result ↔ HasSmallSize m.now }
{
    let (low, high) = degree_range(m);
    fits(
        m.rows() as u64,
        m.cols() as u64,
        i64::from(low),
        i64::from(high),
    )
}

/// The least and the greatest of 0 and the degrees of a matrix.
fn degree_range(m: &Matrix) -> (i32, i32)
    ensures { AreFrom result.0 result.1 (row_degrees m.now ++ m.now.target) }
{
    let mut low: i32 = 0;
    let mut high: i32 = 0;
    for i in 0..m.rows() {
        let degree = m.row(i).degree();
        low = low.min(degree);
        high = high.max(degree);
    }
    for degree in m.target().degrees.as_slice() {
        low = low.min(*degree);
        high = high.max(*degree);
    }
    (low, high)
}
