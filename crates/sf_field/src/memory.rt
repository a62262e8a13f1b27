use std::alloc::{AllocError, AllocFailed};
use thiserror::Error;

/// Memory ran out, and nothing else went wrong.
#[derive(Clone, Copy, Debug, PartialEq, Eq, Error)]
#[error("out of memory")]
pub struct OutOfMemory;

impl From<AllocError> for OutOfMemory {
    fn from(_error: AllocError) -> OutOfMemory {
        OutOfMemory
    }
}

impl<T: Drop> From<AllocFailed<T>> for OutOfMemory {
    fn from(_error: AllocFailed<T>) -> OutOfMemory {
        OutOfMemory
    }
}

#[cfg(test)]
mod tests {
    use super::*;
    use std::alloc::Global;
    use std::test::Fail;

    fn pair(alloc: Global) -> Result<Vec<u32>, OutOfMemory> {
        let mut numbers = Vec::with_capacity(alloc, 1)?;
        numbers.push(1)?;
        numbers.push(2)?;
        Ok(numbers)
    }

    #[test]
    fn converts_by_the_question_mark(rt: HostRuntime) -> Result<(), Fail> {
        let pair = pair(rt.alloc())?;
        assert_eq!(rt; pair.as_slice(), [1, 2].as_slice());
        let text = format!(in rt.alloc(); "{OutOfMemory}")?;
        assert_eq!(rt; text.as_str(), "out of memory");
        Ok(())
    }
}
