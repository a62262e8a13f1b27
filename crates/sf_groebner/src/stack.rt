ghost use Rattle.sf_groebner.specs.CutLaws.{HasBasisOfFirstBlocks, HasRelationsAsFirstBlocks};

/// The reduced basis of the syzygies of a stack gives that of the relations of its first rows modulo the span of the others.
pub fn stack_parts()
    ensures basis { HasBasisOfFirstBlocks }
    ensures relations { HasRelationsAsFirstBlocks }
{}
