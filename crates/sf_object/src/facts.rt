ghost use Rattle.sf_algebra.specs.Matrices.{IsMatrix};
ghost use Rattle.sf_algebra.specs.Rings.{IsOverField};

use sf_matrix::Matrix;

/// Does nothing: its contract says what holds of each matrix.
pub fn matrix_facts(m: &Matrix)
    ensures matrix { IsMatrix m.now }
    ensures field { IsOverField m.now.ring }
{
    let _rows = m.rows();
    m.modulus().facts();
}
