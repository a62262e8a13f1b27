ghost use Rattle.std.specs.Prelude.{◌≡◌, ℕ, ◌<◌, ◌≤◌, ◌↔◌, IsSome, IfSome};
ghost use Rattle.sf_field.specs.Moduli.{IsModulus};
ghost use Rattle.sf_algebra.specs.Primes.{IsPrime};
ghost use Rattle.sf_algebra.specs.Residues.{sum_mod, negative_mod, product_mod};

use std::marker::Model;

const MODULI: [u64; 10] = [2, 3, 5, 7, 11, 13, 31, 101, 251, 32003];

/// One of the ten primes that a ring may be taken modulo. Contracts see it as this number.
///
/// A residue is a `u32` below the number.
#[derive(Clone, Copy, Debug, PartialEq, Eq, Hash)]
pub struct Modulus {
    number: u32,
}

impl Model for Modulus {
    ghost Value = { ℕ };

    ghost view = { λ m. m.number };

    ghost invariant = { λ m. IsModulus m.number };

    ghost inverse = { λ p. record { number = p } };
}

impl Modulus {
    /// The modulus `n`, or `None` exactly where `n` isn't one of the ten.
    #[tactic(auto, unfolding(crate::specs::Moduli::is_modulus))]
    pub fn from_number(n: u64) -> Option<Modulus>
        ensures listed { IsSome result ↔ IsModulus n }
        ensures value { IfSome result (λ p. p ≡ n) }
    {
        if MODULI.contains(&n) {
            Some(Modulus { number: n as u32 })
        } else {
            None
        }
    }

    /// The number itself, with what a caller may rely on of it.
    #[tactic(auto, using(crate::proofs::Moduli::modulus_facts))]
    pub fn value(self) -> u32
        ensures same { result ≡ self }
        ensures listed { IsModulus result }
        ensures prime { IsPrime result }
        ensures above_one { 1 < result }
        ensures bounded { result ≤ 32003 }
    {
        self.number
    }

    /// Does nothing: its contract says what holds of each modulus.
    #[tactic(auto, using(crate::proofs::Moduli::modulus_facts))]
    pub fn facts(self)
        ensures prime { IsPrime self }
        ensures above_one { 1 < self }
        ensures positive { 0 < self }
    {
        let _number = self.value();
    }

    /// The sum of two residues.
    #[tactic(auto, using(crate::proofs::Programs::additions))]
    pub fn add(self, a: u32, b: u32) -> u32
        requires left { a < self }
        requires right { b < self }
        ensures sum { result ≡ sum_mod self a b }
        ensures below { result < self }
    {
        let p = self.value();
        let sum = a + b;
        if sum < p { sum } else { sum - p }
    }

    /// The negative of a residue.
    #[tactic(auto, using(crate::proofs::Programs::negatives))]
    pub fn neg(self, a: u32) -> u32
        requires { a < self }
        ensures negative { result ≡ negative_mod self a }
        ensures below { result < self }
    {
        if a == 0 { 0 } else { self.value() - a }
    }

    /// The product of two residues.
    #[tactic(auto, unfolding(sf_algebra::specs::Residues::product_mod))]
    pub fn mul(self, a: u32, b: u32) -> u32
        requires left { a < self }
        requires right { b < self }
        ensures product { result ≡ product_mod self a b }
        ensures below { result < self }
    {
        let p = self.value();
        a * b % p
    }

    /// The inverse of a residue that isn't zero.
    ///
    /// Where `p = q * rest + r`, the product of `rest` and `-q` is `r`. So each division gives a factor that takes
    /// `a` to a smaller remainder, until the remainder is 1.
    pub fn inv(self, a: u32) -> u32
        requires nonzero { 0 < a }
        requires residue { a < self }
        ensures inverse { product_mod self a result ≡ 1 }
        ensures nonzero { 0 < result }
        ensures below { result < self }
    {
        let p = self.value();
        let mut rest = a;
        let mut factor = 1;
        while rest != 1 {
            factor = self.mul(factor, self.neg(p / rest));
            rest = p % rest;
        }
        factor
    }
}

#[cfg(test)]
mod tests {
    use super::*;
    use std::test::Fail;

    #[test]
    fn tells_the_ten_from_their_neighbours(rt: HostRuntime) {
        let last = u64::MAX;
        let absent = [
            0, 1, 4, 6, 8, 10, 12, 14, 17, 30, 32, 100, 102, 250, 252, 32002, 32004, 4294967298,
            last,
        ];
        for n in absent {
            assert!(rt; Modulus::from_number(n).is_none(), "at {n}");
        }
        for n in [2, 3, 5, 7, 11, 13, 31, 101, 251, 32003] {
            assert_eq!(rt;
                Modulus::from_number(n).map(|p| u64::from(p.value())),
                Some(n)
            );
        }
    }

    #[test]
    fn adds_and_multiplies(rt: HostRuntime) -> Result<(), Fail> {
        // modulus, a, b, sum, product
        let table = [
            (2, 1, 1, 0, 1),
            (3, 2, 2, 1, 1),
            (5, 4, 3, 2, 2),
            (7, 5, 6, 4, 2),
            (11, 0, 10, 10, 0),
            (13, 12, 12, 11, 1),
            (31, 30, 1, 0, 30),
            (101, 60, 41, 0, 36),
            (251, 250, 2, 1, 249),
            (32003, 12345, 23456, 3798, 1176),
        ];
        for (n, a, b, sum, product) in table {
            let p = Modulus::from_number(n).ok_or("not a modulus")?;
            assert!(rt; a < p.value());
            assert!(rt; b < p.value());
            assert_eq!(rt; p.add(a, b), sum, "{a} + {b} modulo {n}");
            assert_eq!(rt; p.mul(a, b), product, "{a} * {b} modulo {n}");
        }
        Ok(())
    }

    #[test]
    fn negates_and_inverts(rt: HostRuntime) -> Result<(), Fail> {
        // modulus, a, negative, inverse
        let table = [
            (2, 1, 1, 1),
            (3, 2, 1, 2),
            (5, 2, 3, 3),
            (7, 3, 4, 5),
            (11, 7, 4, 8),
            (13, 5, 8, 8),
            (31, 2, 29, 16),
            (101, 3, 98, 34),
            (251, 2, 249, 126),
            (32003, 2, 32001, 16002),
            (32003, 32002, 1, 32002),
        ];
        for (n, a, negative, inverse) in table {
            let p = Modulus::from_number(n).ok_or("not a modulus")?;
            assert!(rt; 0 < a);
            assert!(rt; a < p.value());
            assert_eq!(rt; p.neg(a), negative, "the negative of {a} modulo {n}");
            assert_eq!(rt; p.inv(a), inverse, "the inverse of {a} modulo {n}");
            assert_eq!(rt; p.mul(a, p.inv(a)), 1, "{a} times its inverse modulo {n}");
            assert_eq!(rt; p.neg(0), 0);
        }
        Ok(())
    }
}
