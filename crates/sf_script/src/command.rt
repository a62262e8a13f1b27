use sf_matrix::{List, Name};
use sf_text::RawMatrix;

/// What a query asks for that presents a module, so that the module may be given a name.
#[derive(Debug, Drop)]
pub enum Query {
    /// The kernel of a map.
    Kernel { name: Name },
    /// The image of a map.
    Image { name: Name },
    /// The cokernel of a map.
    Coker { name: Name },
}

/// What a line of the grammar asks for.
#[derive(Debug, Drop)]
pub enum Command {
    /// The heading that gives the version of the language.
    Spectral {
        version: i32,
    },
    /// The heading that gives the ring: the modulus and the variables.
    Ring {
        modulus: u64,
        names: List<Name>,
    },
    /// The heading that gives the limit on bases.
    Limit {
        limit: i32,
    },
    /// A module: the degrees of its generators, and its relations, a row each.
    Module {
        name: Name,
        degrees: List<i32>,
        relations: RawMatrix,
    },
    /// A map of modules: where the generators of the source go, a row each.
    Map {
        name: Name,
        source: Name,
        target: Name,
        matrix: RawMatrix,
    },
    /// A complex: its maps, the one that arrives at place 0 first.
    Complex {
        name: Name,
        maps: List<Name>,
    },
    /// A name for the module that a query presents.
    Let {
        name: Name,
        query: Query,
    },
    /// The module that a query presents.
    Ask {
        query: Query,
    },
    /// The relations of a module, the matrix of a map, or those of a complex.
    Show {
        name: Name,
    },
    /// The reduced basis of a module's relations.
    Basis {
        name: Name,
    },
    /// The reduced basis of the syzygies of a module's relations.
    Syz {
        name: Name,
    },
    /// Whether a vector over a module's generators, which a matrix of one row writes, is in the span of its relations.
    Member {
        name: Name,
        vector: RawMatrix,
    },
    /// The coefficients by which such a vector is a combination of the relations.
    Lift {
        name: Name,
        vector: RawMatrix,
    },
    /// So many steps of the resolution of a module.
    Resolve {
        name: Name,
        steps: i32,
    },
    /// A command that isn't built yet.
    Later,
}

/// A line of the grammar: its client, without a byte where none is written, and what it asks for.
#[derive(Debug, Drop)]
pub struct Line {
    pub client: Name,
    pub command: Command,
}
