ghost use Rattle.std.specs.Prelude.{◌≡◌, ◌+◌, ◌*◌, ◌^◌, ◌<◌, length, IfSome, Result};
ghost use Rattle.sf_algebra.specs.Matrices.{row_degrees};
ghost use Rattle.sf_matrix.specs.Bounds.{SumsFit};
ghost use Rattle.sf_matrix.specs.Meets.{Meets};
ghost use Rattle.sf_genmor.specs.QuotientLaws.{EndsBySize};
ghost use Rattle.sf_functor.specs.TensorPlans.{tensor_plan};

use crate::free::tensor_free;
use crate::maps::tensor_map;
use sf_genmor::{Presentation, present_quotient, size_fault};
use sf_matrix::{BaseFault, Bases, Matrix};
use sf_object::{Presented, matrix_facts};
use std::alloc::Global;

/// The tensor product of two presented modules: generators and relations of the pairs of a generator of each, modulo the relations of
/// the first with each generator of the second, and those of the second with each generator of the first.
///
/// It looks at the matrix of all these relations, and at what the presentation needs. Where its size is out of bounds the matrix isn't
/// made.
pub fn tensor<B: Bases>(
    alloc: Global,
    m: &Presented,
    n: &Presented,
    bases: &mut B,
) -> Result<Presentation, BaseFault>
    requires ring { m.now.ring ≡ n.now.ring }
    requires rows { length m.now.rows * length n.now.target + length m.now.target * length n.now.rows < 2 ^ 64 }
    requires columns { length m.now.target * length n.now.target < 2 ^ 64 }
    requires generators { SumsFit m.now.target n.now.target }
    requires first { SumsFit (row_degrees m.now) n.now.target }
    requires second { SumsFit m.now.target (row_degrees n.now) }
    ensures { Meets (B.table bases.old) (tensor_plan m.now n.now) result (B.table bases.new) }
{
    matrix_facts(m.relations());
    if let Some(fault) = relations_fault(m.relations(), n.relations()) {
        return Err(fault);
    }
    let first = tensor_map(alloc, m.relations(), n)?;
    let second = tensor_free(alloc, m.free(), n)?;
    let relations = first.stack(alloc, second.relations())?;
    present_quotient(alloc, &relations, bases)
}

/// The fault of the size of the matrix of all relations of the tensor product of modules with these relations, asked on numbers.
fn relations_fault(m: &Matrix, n: &Matrix) -> Option<BaseFault>
    requires rows { length m.now.rows * length n.now.target + length m.now.target * length n.now.rows < 2 ^ 64 }
    requires columns { length m.now.target * length n.now.target < 2 ^ 64 }
    ensures { IfSome result (EndsBySize
        (length m.now.rows * length n.now.target + length m.now.target * length n.now.rows)
        (length m.now.target * length n.now.target)) }
{
    let (m_rows, m_cols) = (m.rows() as u64, m.cols() as u64);
    let (n_rows, n_cols) = (n.rows() as u64, n.cols() as u64);
    size_fault(m_rows * n_cols + m_cols * n_rows, m_cols * n_cols)
}
