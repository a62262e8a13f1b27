ghost use Rattle.sf_bicomplex.specs.NextPageLaws.{HasInverseNextMaps, HasNextPageAtBorders, HasNextPageByMatrix, HasOnePageHomology};

/// Page r + 1 is the homology of page r: the kernel of the matrix of its differential modulo relations, over the span of
/// the matrix that arrives and of the relations, by two matrices that are inverse to one another.
pub fn next_pages_have_inverse_matrices()
    ensures matrices { HasNextPageByMatrix }
    ensures borders { HasNextPageAtBorders }
    ensures homology { HasOnePageHomology }
    ensures inverse { HasInverseNextMaps }
{}
