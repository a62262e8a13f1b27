ghost use Rattle.sf_homotopy.specs.TriangleLaws.{HasExactTriangles, HasExactBlockTriangles};

/// Block triangular matrices with exact blocks on the diagonal are exact.
pub fn block_triangles_are_exact()
    ensures two { HasExactTriangles }
    ensures all { HasExactBlockTriangles }
{}
