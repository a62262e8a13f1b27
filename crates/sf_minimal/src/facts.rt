ghost use Rattle.std.specs.Prelude.{◌≡◌, ◌<◌};
ghost use Rattle.sf_algebra.specs.Matrices.{IsMatrix};
ghost use Rattle.sf_algebra.specs.Primes.{IsPrime};
ghost use Rattle.sf_algebra.specs.Rings.{plain};

use sf_matrix::Matrix;

/// Does nothing: its contract says what holds of each matrix.
pub(crate) fn matrix_facts(m: &Matrix)
    ensures matrix { IsMatrix m.now }
    ensures prime { IsPrime m.now.ring.modulus }
    ensures weights { m.now.ring ≡ plain m.now.ring.modulus }
    ensures above_one { 1 < m.now.ring.modulus }
{
    let _rows = m.rows();
    m.modulus().facts();
}
