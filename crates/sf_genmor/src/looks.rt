ghost use Rattle.std.specs.Prelude.{Result};
ghost use Rattle.sf_matrix.specs.Meets.{Meets};
ghost use Rattle.sf_genmor.specs.LookPlans.{basis_plan, syzygies_plan};

use sf_field::Copied;
use sf_matrix::{BaseFault, Bases, Free, List, Matrix, look};
use std::alloc::Global;

/// The reduced basis of the span of a matrix, over its target.
pub fn basis_of<B: Bases>(alloc: Global, m: &Matrix, bases: &mut B) -> Result<Matrix, BaseFault>
    ensures { Meets (B.table bases.old) (basis_plan m.now) result (B.table bases.new) }
{
    match look(alloc, m, bases)? {
        None => Ok(Matrix::new(alloc, m.modulus(), m.target().copy(alloc)?)),
        Some(entry) => Ok(bases.at(entry).basis.copy(alloc)?),
    }
}

/// The reduced basis of the syzygies of a matrix, over the free module of its rows' degrees.
pub fn syzygies_of<B: Bases>(alloc: Global, m: &Matrix, bases: &mut B) -> Result<Matrix, BaseFault>
    ensures { Meets (B.table bases.old) (syzygies_plan m.now) result (B.table bases.new) }
{
    match look(alloc, m, bases)? {
        None => {
            let target = Free {
                degrees: List::new(alloc),
            };
            Ok(Matrix::new(alloc, m.modulus(), target))
        }
        Some(entry) => Ok(bases.at(entry).syzygies.copy(alloc)?),
    }
}
