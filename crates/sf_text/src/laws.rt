//! Laws of what is printed and read. The functions do nothing: their contracts are the laws.

ghost use Rattle.sf_text.specs.ReadingBack.{ReadsBack, ReadsBackWithoutDegrees, ReadsBackWithoutRows, HasReadDegree, DegreesReadBack};

/// The rows that are printed of a matrix read back as the matrix.
///
/// A row that is 0 is read with the degree 0, and over no column no row is read.
pub fn printed_matrices_read_back()
    ensures nonzero { ReadsBack }
    ensures columns { ReadsBackWithoutDegrees }
    ensures no_column { ReadsBackWithoutRows }
    ensures degree { HasReadDegree }
{}

/// The degrees that are printed before the rows read back as these.
pub fn printed_degrees_read_back()
    ensures { DegreesReadBack }
{}
