use sf_matrix::{List, Matrix};

/// What is replied to a line that isn't refused.
#[derive(Debug, Drop)]
pub enum Reply {
    /// The line is carried out.
    Accepted,
    /// The module that was asked for.
    ShowModule { relations: Matrix },
    /// The map that was asked for.
    ShowMap { matrix: Matrix },
    /// The basis that was asked for, as rows over the module's generators.
    Basis { matrix: Matrix },
    /// The syzygies of a module's relations, as rows over the free module of their degrees.
    Syz { matrix: Matrix },
    /// The lift that was asked for, as the one row of a matrix over the free module of the relations' degrees.
    Lift { matrix: Matrix },
    /// Whether the vector is in the span.
    Member { yes: bool },
    /// The matrices of a complex or of a resolution, the one that arrives at place 0 first.
    Differentials { steps: List<Matrix> },
    /// The generators of the module that a query presents, and the relations between them.
    Pair { gens: Matrix, rels: Matrix },
}
