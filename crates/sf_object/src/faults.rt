ghost use Rattle.std.specs.Prelude.{◌≡◌, ◌+◌, ◌^◌, ◌<◌, ◌≤ℤ◌, IfOk, IfSome};
ghost use Rattle.std.specs.List.{AllByRecursion};
ghost use Rattle.sf_matrix.specs.Meets.{Meets, IsLookOf};
ghost use Rattle.sf_matrix.specs.Tables.{GREATEST_REDUCED_DEGREE};
ghost use Rattle.sf_object.specs.Faults.{HasImageRoom, IsBetween, IsFirstOrNone, map_of, map_plan};

use crate::facts::matrix_facts;
use crate::map::Map;
use sf_field::OutOfMemory;
use sf_matrix::{BaseFault, Bases, Matrix, look, reduced};
use std::alloc::Global;

/// The number, counted from 0, of the first relation of the source that isn't sent into the span of the target's relations, or
/// `None` exactly where the matrix is a map of the modules.
pub fn map_fault<B: Bases>(
    alloc: Global,
    f: &Map,
    bases: &mut B,
) -> Result<Option<usize>, BaseFault>
    requires between { IsBetween f.now }
    requires room { HasImageRoom f.now }
    ensures meets { Meets (B.table bases.old) (map_plan f.now) result (B.table bases.new) }
    ensures counted { IfOk result (λ found. IfSome found (λ k. k + 1 < 2 ^ 64)) }
{
    image_fault(
        alloc,
        f.source.relations(),
        &f.matrix,
        f.target.relations(),
        bases,
    )
}

/// The number, counted from 0, of the first row of `source` that `matrix` doesn't send into the span of `target`.
///
/// It looks at `target`.
pub fn image_fault<B: Bases>(
    alloc: Global,
    source: &Matrix,
    matrix: &Matrix,
    target: &Matrix,
    bases: &mut B,
) -> Result<Option<usize>, BaseFault>
    requires between { IsBetween (map_of source.now matrix.now target.now) }
    requires room { HasImageRoom (map_of source.now matrix.now target.now) }
    ensures meets { Meets (B.table bases.old) (map_plan (map_of source.now matrix.now target.now)) result (B.table bases.new) }
    ensures counted { IfOk result (λ found. IfSome found (λ k. k + 1 < 2 ^ 64)) }
{
    let entry = look(alloc, target, bases)?;
    let images = source.product(alloc, matrix)?;
    matrix_facts(&images);
    Ok(first_outside(alloc, target, entry, &images, bases)?)
}

/// The number, counted from 0, of the first row of `vectors` that isn't in the span of `m`, where a look at `m` found `entry`.
pub fn first_outside<B: Bases>(
    alloc: Global,
    m: &Matrix,
    entry: Option<usize>,
    vectors: &Matrix,
    bases: &B,
) -> Result<Option<usize>, OutOfMemory>
    requires entry { IsLookOf (B.table bases.now) m.now entry }
    requires ring { vectors.now.ring ≡ m.now.ring }
    requires target { vectors.now.target ≡ m.now.target }
    requires room { AllByRecursion (λ v. v.degree ≤ℤ GREATEST_REDUCED_DEGREE) vectors.now.rows }
    ensures first { IfOk result (λ found. IsFirstOrNone m.now vectors.now.rows found) }
    ensures counted { IfOk result (λ found. IfSome found (λ k. k + 1 < 2 ^ 64)) }
{
    matrix_facts(m);
    for i in 0..vectors.rows() {
        let (rest, _coefficients) = reduced(alloc, m, entry, vectors.row(i), bases)?;
        if !rest.is_empty() {
            return Ok(Some(i));
        }
    }
    Ok(None)
}
