ghost use Rattle.sf_bicomplex.specs.FiltrationLaws.{HasLeadingColumns, HasPartsAsLastPage, HasRisingParts};

/// The parts of the homology of the total complex, each modulo the next lower one, are the last page, column by column.
pub fn filtrations_have_last_pages()
    ensures parts { HasRisingParts }
    ensures columns { HasLeadingColumns }
    ensures last_page { HasPartsAsLastPage }
{}
