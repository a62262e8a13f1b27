ghost use Rattle.std.specs.Prelude.{◌≡◌, Result};
ghost use Rattle.sf_matrix.specs.Meets.{Meets};
ghost use Rattle.sf_genmor.specs.PresentationPlans.{IsPresentable, present_plan, relations_plan};

use crate::blocks::first_blocks_of;
use crate::generators::minimal_generators;
use sf_field::{Copied, OutOfMemory};
use sf_matrix::{BaseFault, Bases, Free, List, Matrix};
use std::alloc::Global;

/// Generators of a module modulo another one, and their relations.
#[derive(Debug, Drop)]
pub struct Presentation {
    /// The minimal generators.
    pub gens: Matrix,
    /// The minimal relations between them.
    pub rels: Matrix,
    /// The reduced basis of all relations.
    pub reduced_rels: Matrix,
}

impl Copied for Presentation {
    fn copy(&self, alloc: Global) -> Result<Presentation, OutOfMemory> {
        Ok(Presentation {
            gens: self.gens.copy(alloc)?,
            rels: self.rels.copy(alloc)?,
            reduced_rels: self.reduced_rels.copy(alloc)?,
        })
    }
}

/// The presentation of the span of `n`, a reduced basis, modulo the span of `base` within it.
///
/// Where there is a generator it looks at the generators with `base` behind them.
pub fn present<B: Bases>(
    alloc: Global,
    n: &Matrix,
    base: &Matrix,
    bases: &mut B,
) -> Result<Presentation, BaseFault>
    requires presentable { IsPresentable (B.table bases.old).limit n.now base.now }
    ensures { Meets (B.table bases.old) (present_plan n.now base.now) result (B.table bases.new) }
{
    let gens = minimal_generators(alloc, n, base, bases)?;
    let reduced_rels = reduced_relations(alloc, &gens, base, bases)?;
    reduced_rels.modulus().facts();
    let target = reduced_rels.target().copy(alloc)?;
    let none = Matrix::new(alloc, reduced_rels.modulus(), target);
    let rels = minimal_generators(alloc, &reduced_rels, &none, bases)?;
    Ok(Presentation {
        gens,
        rels,
        reduced_rels,
    })
}

/// The reduced relations of generators modulo the span of `base`.
fn reduced_relations<B: Bases>(
    alloc: Global,
    generators: &Matrix,
    base: &Matrix,
    bases: &mut B,
) -> Result<Matrix, BaseFault>
    requires ring { base.now.ring ≡ generators.now.ring }
    requires target { base.now.target ≡ generators.now.target }
    ensures { Meets (B.table bases.old) (relations_plan generators.now base.now) result (B.table bases.new) }
{
    if generators.rows() == 0 {
        let target = Free {
            degrees: List::new(alloc),
        };
        return Ok(Matrix::new(alloc, generators.modulus(), target));
    }
    first_blocks_of(alloc, generators, base, bases)
}
