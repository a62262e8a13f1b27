ghost use Rattle.std.specs.Prelude.{◌≡◌, IfOk};

use crate::memory::OutOfMemory;
use std::alloc::Global;

/// Values of which an equal one can be made, where memory suffices.
pub trait Copied {
    /// An equal value.
    fn copy(&self, alloc: Global) -> Result<Self, OutOfMemory>
        ensures equal { IfOk result (λ x. x ≡ self.now) };
}

impl Copied for u8 {
    fn copy(&self, _alloc: Global) -> Result<u8, OutOfMemory> {
        Ok(*self)
    }
}

impl Copied for u16 {
    fn copy(&self, _alloc: Global) -> Result<u16, OutOfMemory> {
        Ok(*self)
    }
}

impl Copied for u32 {
    fn copy(&self, _alloc: Global) -> Result<u32, OutOfMemory> {
        Ok(*self)
    }
}

impl Copied for u64 {
    fn copy(&self, _alloc: Global) -> Result<u64, OutOfMemory> {
        Ok(*self)
    }
}

impl Copied for u128 {
    fn copy(&self, _alloc: Global) -> Result<u128, OutOfMemory> {
        Ok(*self)
    }
}

impl Copied for usize {
    fn copy(&self, _alloc: Global) -> Result<usize, OutOfMemory> {
        Ok(*self)
    }
}

impl Copied for i8 {
    fn copy(&self, _alloc: Global) -> Result<i8, OutOfMemory> {
        Ok(*self)
    }
}

impl Copied for i16 {
    fn copy(&self, _alloc: Global) -> Result<i16, OutOfMemory> {
        Ok(*self)
    }
}

impl Copied for i32 {
    fn copy(&self, _alloc: Global) -> Result<i32, OutOfMemory> {
        Ok(*self)
    }
}

impl Copied for i64 {
    fn copy(&self, _alloc: Global) -> Result<i64, OutOfMemory> {
        Ok(*self)
    }
}

impl Copied for i128 {
    fn copy(&self, _alloc: Global) -> Result<i128, OutOfMemory> {
        Ok(*self)
    }
}

impl Copied for isize {
    fn copy(&self, _alloc: Global) -> Result<isize, OutOfMemory> {
        Ok(*self)
    }
}

impl<A: Copied + Drop, B: Copied> Copied for (A, B) {
    fn copy(&self, alloc: Global) -> Result<(A, B), OutOfMemory> {
        Ok((self.0.copy(alloc)?, self.1.copy(alloc)?))
    }
}

impl<A: Copied + Drop, B: Copied + Drop, C: Copied> Copied for (A, B, C) {
    fn copy(&self, alloc: Global) -> Result<(A, B, C), OutOfMemory> {
        Ok((
            self.0.copy(alloc)?,
            self.1.copy(alloc)?,
            self.2.copy(alloc)?,
        ))
    }
}

#[cfg(test)]
mod tests {
    use super::*;
    use std::test::Fail;

    #[test]
    fn copies_numbers_pairs_and_triples(rt: HostRuntime) -> Result<(), Fail> {
        let alloc = rt.alloc();
        assert_eq!(rt; (3_u32, -4_i64).copy(alloc)?, (3_u32, -4_i64));
        assert_eq!(rt;
            (7_u8, (5_usize, 6_u64), -1_i32).copy(alloc)?,
            (7_u8, (5_usize, 6_u64), -1_i32)
        );
        Ok(())
    }
}
