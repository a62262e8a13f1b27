//! Cartan-Eilenberg resolutions, the bidual bicomplex of a presented module, and the purity filtration.
//!
//! The definitions are in `specs/`, the lemmas in `proofs/`. The functions here do nothing: the
//! contract of each is a law of the definitions.
#![tactic(auto)]

mod augmentation;
mod bidual;
mod bound;
mod column;
mod embedded;
mod example;
mod existence;
mod factor;
mod horizontal;
mod horseshoe;
mod purity;
mod torsion;

pub use augmentation::bidual_has_the_homology_of_the_module;
pub use bidual::bidual_is_a_bicomplex;
pub use bound::purity_filtrations_exist;
pub use column::columns_are_resolutions;
pub use embedded::embedded_point;
pub use example::one_variable;
pub use existence::cartan_eilenberg_resolutions_exist;
pub use factor::factors_stand_below_two_columns;
pub use horizontal::horizontal_maps_commute;
pub use horseshoe::horseshoes_are_exact;
pub use purity::modules_have_purity_filtrations;
pub use torsion::torsion_stands_in_lower_columns;
