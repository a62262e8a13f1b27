use sf_matrix::Name;

/// Why a line is refused.
#[derive(Debug, Drop)]
pub enum LineFault {
    /// It isn't in the grammar, and leaves it at this column, counted from 1.
    Syntax { col: u32 },
    /// It asks for something that isn't built yet.
    Later,
    /// A heading is wrong or out of its place, or the ring isn't given yet.
    Ring,
    /// This name of a module, of a map, of a complex or of a variable isn't known.
    Unknown { name: Name },
    /// This name stands for a thing of another kind than the command takes.
    Kind { name: Name },
    /// This name is to be defined, and is known already.
    Taken { name: Name },
    /// A matrix hasn't the numbers of rows and columns that its place asks for, or two maps of a complex don't meet in equal modules.
    Shape,
    /// The row with this number, counted from 1, is the first that isn't homogeneous of the degree that its place asks for.
    Degree { row: u64 },
    /// The relation of the source with this number, counted from 1, is the first that isn't sent into the target's relations.
    NotMap { relation: u64 },
    /// The first law of a complex that fails is that of this place and column: two maps that follow one another aren't zero.
    NotComplex { place: u64 },
    /// A degree, a limit or a number of steps is out of its range.
    Range,
    /// The vector isn't in the span.
    NotInSpan,
    /// The matrix that is looked at, with so many rows and columns, isn't small for the limit.
    Large { rows: u64, cols: u64 },
}
