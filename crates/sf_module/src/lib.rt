//! The homology of a complex of presented modules, and the kernel, the image and the cokernel of a map, through any table of
//! bases.
//!
//! What a call looks at, and what it answers, is a plan; what a plan answers is a law.
#![tactic(auto)]

mod laws;
mod modules;

pub use laws::{
    answers_are_sound, cokernels_are_answered, homologies_are_answered, images_are_answered,
    kernels_are_answered,
};
pub use modules::{cokernel, homology, image, kernel};
