//! Definitions and laws of spans, syzygies, reduced bases, presentations, homology and resolutions.
//!
//! The definitions are in `specs/`, the lemmas in `proofs/`. The functions here do nothing: the
//! contract of each is a law of the definitions.
#![tactic(auto)]

mod bases;
mod chain_map;
mod criterion;
mod examples;
mod existence;
mod graph;
mod large;
mod lead;
mod lift;
mod minimal;
mod presentation;
mod stack;

pub use bases::{bases_are_bases_of_their_spans, reduced_bases_are_unique};
pub use chain_map::homology_of_maps;
pub use criterion::{pairs_decide_bases, pairs_give_syzygies};
pub use examples::{koszul_homology, refused_bases, resolutions_of_ideals, two_quadrics};
pub use existence::{
    each_matrix_has_one_answer, each_vector_has_one_reduction, each_vector_has_one_rest,
    each_vector_of_a_span_has_a_lift, presentations_exist, reduced_bases_exist,
};
pub use graph::{graph_parts, graph_vectors_are_pairs};
pub use large::needed_leads_decide_large;
pub use lead::divisors_are_tested;
pub use lift::{coordinates_are_unique, lifts_are_unique};
pub use minimal::{minimal_generators_are_chosen, minimal_generators_are_unique};
pub use presentation::{presentations_are_matrices, presentations_are_unique};
pub use stack::stack_parts;
