//! The modules Hom(D, N) and D (x) N of a free module D and a presented module N, what a map of free modules does to them, and the
//! tensor product of two presented modules, through any table of bases.
//!
//! What a call looks at, and what it answers, is a plan; what a plan answers is a law, and so is what holds of Hom and tensor.
#![tactic(auto)]

mod free;
mod laws;
mod maps;
mod room;
mod tensors;

pub use free::{hom_free, tensor_free};
pub use laws::{
    free_functors_have_pairs, functors_keep_complexes, functors_keep_maps, tensors_are_answered,
    tensors_are_of_vectors, the_ring_is_left_out,
};
pub use maps::{hom_map, tensor_map};
pub use tensors::tensor;

#[cfg(test)]
mod tests;
