use sf_buchberger::GraphBasis;
use sf_matrix::Matrix;

/// A matrix that was looked at, and the basis of its graph, or none where the matrix is large.
#[derive(Drop)]
pub(crate) struct Looked {
    pub(crate) matrix: Matrix,
    pub(crate) basis: Option<GraphBasis>,
}
