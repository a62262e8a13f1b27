ghost use Rattle.sf_variables.specs.BasisLaws.{HasGraphBasisInVariables, HasSpanBasisInVariables, HasSyzygyBasisInVariables, HasRelationBasisInVariables, HasFirstBlockBasisInVariables, HasMinimalSpanInVariables, HasMinimalSyzygiesInVariables, HasMinimalRelationsInVariables};

/// Reduced bases and minimal generators of the modules of a matrix over n variables are over n
/// variables.
pub fn bases_keep_to_variables()
    ensures graph { HasGraphBasisInVariables }
    ensures span { HasSpanBasisInVariables }
    ensures syzygies { HasSyzygyBasisInVariables }
    ensures relations { HasRelationBasisInVariables }
    ensures first_blocks { HasFirstBlockBasisInVariables }
    ensures minimal_span { HasMinimalSpanInVariables }
    ensures minimal_syzygies { HasMinimalSyzygiesInVariables }
    ensures minimal_relations { HasMinimalRelationsInVariables }
{}
