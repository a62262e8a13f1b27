//! Finitely presented modules, the maps between them, complexes, and what a shelf of resolutions promises.
#![tactic(auto)]

mod complex;
mod facts;
mod faults;
mod laws;
mod map;
mod presented;
mod steps;

pub use complex::{Complex, complex_fault};
pub use facts::matrix_facts;
pub use faults::{first_outside, image_fault, map_fault};
pub use laws::{
    complexes_have_no_failure, first_failures_are_answered, first_faults_are_answered,
    maps_have_no_fault,
};
pub use map::Map;
pub use presented::Presented;
pub use steps::Steps;
