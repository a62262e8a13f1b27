use crate::presented::Presented;
use sf_field::OutOfMemory;
use sf_matrix::{Copied, Matrix};
use std::alloc::Global;

/// A matrix between two presented modules. Row i is the image of generator i of the source, over the generators of the target.
#[derive(Debug, Drop)]
pub struct Map {
    pub source: Presented,
    pub target: Presented,
    pub matrix: Matrix,
}

impl Copied for Map {
    fn copy(&self, alloc: Global) -> Result<Map, OutOfMemory> {
        Ok(Map {
            source: self.source.copy(alloc)?,
            target: self.target.copy(alloc)?,
            matrix: self.matrix.copy(alloc)?,
        })
    }
}
