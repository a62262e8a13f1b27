ghost use Rattle.std.specs.Prelude.{ℕ, ◌≡◌, ◌+◌, ◌^◌, ◌<◌, IfOk, IfSome};
ghost use Rattle.std.specs.List.{AllByRecursion};
ghost use Rattle.sf_matrix.specs.Meets.{Meets};
ghost use Rattle.sf_object.specs.Complexes.{HasSquareRoom, IsChain, complex_plan, junctions};

use crate::faults::image_fault;
use crate::map::Map;
use sf_field::OutOfMemory;
use sf_matrix::{BaseFault, Bases, Copied, List};
use std::alloc::Global;

/// Maps f1, f2 and so on, where fk goes from place k to place k - 1.
#[derive(Debug, Drop)]
pub struct Complex {
    pub maps: List<Map>,
}

impl Copied for Complex {
    fn copy(&self, alloc: Global) -> Result<Complex, OutOfMemory> {
        Ok(Complex {
            maps: self.maps.copy(alloc)?,
        })
    }
}

/// The number k, counted from 1, of the first law that fails, that map k + 1 and then map k are 0 modulo the relations of the last
/// module, or `None` exactly where all hold.
///
/// It looks at the relations of each of these modules before it tries the law.
pub fn complex_fault<B: Bases>(
    alloc: Global,
    c: &Complex,
    bases: &mut B,
) -> Result<Option<usize>, BaseFault>
    requires chain { IsChain c.now }
    requires room { AllByRecursion HasSquareRoom (junctions c.now.maps) }
    ensures meets { Meets (B.table bases.old) (complex_plan c.now) result (B.table bases.new) }
    ensures counted { IfOk result (λ found. IfSome found (λ k. k + 1 < 2 ^ 64)) }
{
    let maps = c.maps.as_slice();
    for k in 1..maps.len() {
        let first = &maps[k];
        let second = &maps[k - 1];
        let outside = image_fault(
            alloc,
            &first.matrix,
            &second.matrix,
            second.target.relations(),
            bases,
        )?;
        if outside.is_some() {
            return Ok(Some(k));
        }
    }
    Ok(None)
}
