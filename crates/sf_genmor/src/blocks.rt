ghost use Rattle.std.specs.Prelude.{◌≡◌, ◌++◌, IfOk, OnOk, Result};
ghost use Rattle.sf_algebra.specs.Matrices.{row_degrees};
ghost use Rattle.sf_algebra.specs.Vectors.{IsVector};
ghost use Rattle.sf_matrix.specs.Meets.{Meets};
ghost use Rattle.sf_genmor.specs.LookPlans.{BeginWith, blocks_plan, first_blocks, nonzero};

use crate::looks::syzygies_of;
use sf_field::OutOfMemory;
use sf_matrix::{BaseFault, Bases, Matrix, Vector};
use std::alloc::Global;

/// The reduced basis of the relations of the rows of `a` modulo the span of `b`: the first blocks, where they aren't 0, of the
/// syzygies of `a` with `b` behind it.
pub fn first_blocks_of<B: Bases>(
    alloc: Global,
    a: &Matrix,
    b: &Matrix,
    bases: &mut B,
) -> Result<Matrix, BaseFault>
    requires ring { b.now.ring ≡ a.now.ring }
    requires target { b.now.target ≡ a.now.target }
    ensures { Meets (B.table bases.old) (blocks_plan a.now b.now) result (B.table bases.new) }
{
    let stack = a.stack(alloc, b)?;
    let syzygies = syzygies_of(alloc, &stack, bases)?;
    Ok(first_blocks(alloc, a, &syzygies)?)
}

/// The first blocks, where they aren't 0, of known syzygies of the rows of `a` and some others behind them.
pub fn first_blocks(alloc: Global, a: &Matrix, syzygies: &Matrix) -> Result<Matrix, OutOfMemory>
    requires ring { syzygies.now.ring ≡ a.now.ring }
    requires target { BeginWith (row_degrees a.now) syzygies.now.target }
    ensures blocks { IfOk result (λ m. m ≡ first_blocks a.now syzygies.now.rows) }
{
    let end = a.rows() as u64;
    let mut blocks = Matrix::new(alloc, a.modulus(), a.row_module(alloc)?);
    for i in 0..syzygies.rows() {
        let block = syzygies.row(i).part(alloc, 0, end)?;
        push_nonzero(&mut blocks, block)?;
    }
    Ok(blocks)
}

/// Adds a last row, unless it is 0.
fn push_nonzero(rows: &mut Matrix, v: Vector) -> Result<(), OutOfMemory>
    requires { IsVector rows.old.ring rows.old.target v }
    ensures ok { OnOk result (rows.new ≡ record rows.old { rows = rows.old.rows ++ nonzero v }) }
{
    if v.is_empty() {
        return Ok(());
    }
    rows.push_row(v)
}
