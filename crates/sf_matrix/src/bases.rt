ghost use Rattle.std.specs.Prelude.{◌≡◌, ◌<◌, ◌≤ℤ◌, length, Some, IfOk, IfSome, IsSome};
ghost use Rattle.std.specs.List.{AllByRecursion};
ghost use Rattle.sf_algebra.specs.Bounds.{HasSmallSize};
ghost use Rattle.sf_algebra.specs.Vectors.{IsVector};
ghost use Rattle.sf_groebner.specs.Reductions.{IsReduction};
ghost use Rattle.sf_groebner.specs.Small.{IsSmallReducedBasis};
ghost use Rattle.sf_groebner.specs.Spans.{InSpan};
ghost use Rattle.sf_matrix.specs.KeptNumbers.{AreKeptNumbers, IsModerate, SpansInto};
ghost use Rattle.sf_matrix.specs.Tables.{Table, Opened, GREATEST_REDUCED_DEGREE, graph_at, matrix_at};

use crate::basis::{BaseFault, Graph};
use crate::matrix::Matrix;
use crate::vector::Vector;
use sf_field::OutOfMemory;
use std::alloc::Global;

/// A table of matrices that were looked at for one limit, from 1 to 60, with what the reduced bases of their graphs give. It only
/// grows, and its matrices are distinct.
pub trait Bases {
    // The limit and the entries.
    ghost table: { Self → Table };

    /// The number of the entry of `m`, or `Large` exactly where `m` isn't small for the limit.
    ///
    /// Where `m` has an entry nothing changes, and no memory is taken. Else this entry, and no other, is added at the end, unless
    /// memory is wanting.
    fn open(&mut self, alloc: Global, m: &Matrix) -> Result<usize, BaseFault>
        requires size { HasSmallSize m.now }
        requires row { 0 < length m.now.rows }
        ensures { Opened (table self.old) m.now result (table self.new) };

    /// What the basis of the entry gives.
    fn at(&self, k: usize) -> &Graph
        requires entry { IsSome (graph_at (table self.now) k) }
        ensures graph { graph_at (table self.now) k ≡ Some result.now };

    /// The one pair of a vector w, no term of which a lead of the reduced basis of the entry's matrix M divides, and reduced
    /// coefficients c, for which v = w + c M. So v is in the span of M exactly where w is 0, and c is then its lift.
    fn reduce(&self, alloc: Global, k: usize, v: &Vector) -> Result<(Vector, Vector), OutOfMemory>
        requires entry { IsSome (graph_at (table self.now) k) }
        requires vector { IfSome (matrix_at (table self.now) k) (λ m. IsVector m.ring m.target v.now) }
        requires room { v.now.degree ≤ℤ GREATEST_REDUCED_DEGREE }
        ensures reduction { IfOk result (λ d. IfSome (matrix_at (table self.now) k) (λ m. IsReduction m v.now d.0 d.1)) };

    /// The numbers, counted from 0 and in order, of the rows of `cands` that aren't in the span of `base` and the earlier rows.
    ///
    /// The rows are a reduced basis within the table's limit. The table stays as it is.
    fn minimal(
        &mut self,
        alloc: Global,
        cands: &Matrix,
        base: &Matrix,
    ) -> Result<Vec<usize>, OutOfMemory>
        requires small { IsSmallReducedBasis (table self.old).limit cands.now }
        requires degrees { AllByRecursion IsModerate cands.now.target }
        requires ring { base.now.ring ≡ cands.now.ring }
        requires target { base.now.target ≡ cands.now.target }
        requires inside { SpansInto base.now cands.now }
        ensures same { table self.new ≡ table self.old }
        ensures kept { IfOk result (λ ks. AreKeptNumbers (InSpan base.now) cands.now ks.items) };
}
