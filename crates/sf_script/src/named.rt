use sf_field::OutOfMemory;
use sf_matrix::Copied;
use sf_object::{Complex, Map, Presented};
use std::alloc::Global;

/// What a name stands for.
#[derive(Debug, Drop)]
pub enum Named {
    /// A module, by its relations.
    Module(Presented),
    Mapping(Map),
    Chain(Complex),
}

impl Copied for Named {
    fn copy(&self, alloc: Global) -> Result<Named, OutOfMemory> {
        match self {
            Named::Module(module) => Ok(Named::Module(module.copy(alloc)?)),
            Named::Mapping(map) => Ok(Named::Mapping(map.copy(alloc)?)),
            Named::Chain(complex) => Ok(Named::Chain(complex.copy(alloc)?)),
        }
    }
}
