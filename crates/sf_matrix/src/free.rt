use crate::list::List;
use sf_field::{Copied, OutOfMemory};
use std::alloc::Global;

/// A free module, given by the degrees of its generators.
#[derive(Debug, PartialEq, Eq, Hash, Drop)]
pub struct Free {
    pub degrees: List<i32>,
}

impl Copied for Free {
    fn copy(&self, alloc: Global) -> Result<Free, OutOfMemory> {
        Ok(Free {
            degrees: self.degrees.copy(alloc)?,
        })
    }
}
