use crate::named::Named;
use sf_matrix::{Matrix, Name, Vector};
use sf_object::{Complex, Map, Presented};
use sf_text::Ring;

/// What a query asks for, of a map that is known.
#[derive(Debug, Drop)]
pub enum CheckedQuery {
    Kernel(Map),
    Image(Map),
    Coker(Map),
}

/// What a line asks for that no test before the working list refuses, with the things that its names stand for.
#[derive(Debug, Drop)]
pub enum Checked {
    Opens,
    Enters(Ring),
    /// This limit on bases, from 1 to 60.
    Limits(u32),
    /// A module with this name and these relations.
    Defines(Name, Presented),
    /// A map with this name. Whether it sends relations into relations isn't known yet.
    Maps(Name, Map),
    /// A complex with this name, whose maps meet in equal modules. Whether they are zero one after another isn't known yet.
    Chains(Name, Complex),
    /// This name for the module that a query presents.
    Lets(Name, CheckedQuery),
    Asks(CheckedQuery),
    Shows(Named),
    /// The reduced basis of these relations.
    Basis(Presented),
    /// The reduced basis of their syzygies.
    Syz(Presented),
    /// Whether the vector, over the module's generators, is in the span of its relations.
    Member(Presented, Vector),
    /// The coefficients by which such a vector is a combination of the relations.
    Lift(Presented, Vector),
    /// So many steps of the module's resolution, from 1 to 16.
    Resolves(Presented, u32),
}
