use sf_matrix::{Graph, Matrix};
use sf_reduce::Leads;

/// The reduced basis of the graph of a matrix.
#[derive(Debug, Drop)]
pub struct GraphBasis {
    /// The elements, over the graph's free module.
    pub elements: Matrix,
    /// Their leads.
    pub leads: Leads,
    /// What they give.
    pub graph: Graph,
}
