ghost use Rattle.std.specs.Prelude.{◌≡◌, ◌+◌, ◌<◌, ◌≤◌, ◌-◌, ◌^◌, ◌↔◌, IsSome, IfSome, IsTrue, sum, slice_index, refl};
ghost use Rattle.std.specs.Cmp.{partial_order_from_agreeing_total};
ghost use Rattle.std.specs.Cmp.Rules.{comparing};
ghost use Rattle.std.specs.Ordering.{as_partial_cmp};
ghost use Rattle.std.proofs.Common.{rules};
ghost use Rattle.sf_algebra.specs.Bounds.{GREATEST_SUM};
ghost use Rattle.sf_algebra.specs.Divisibility.{Divides, quotient, lcm};
ghost use Rattle.sf_algebra.specs.Monomials.{VARIABLES, one, product, exponents, from_exponents, exponent_sum, monomial_cmp};
ghost use Rattle.sf_algebra.specs.Numbers.{with_digit};
ghost use Rattle.sf_algebra.specs.Rings.{ones};
ghost use Rattle.sf_algebra.proofs.Monomials.MonomialEquality.{same_exponents, same_exponents-monomial_cmp};
ghost use Rattle.sf_algebra.proofs.Monomials.Orders.{monomial_cmp_total};

use std::cmp::Ordering;
use std::marker::Model;

/// The greatest sum of the exponents of a monomial.
const GREATEST_SUM: u32 = 65_535;

/// What a sum of exponents of 1 counts for in a monomial's number: 2^96.
const SUM_PLACE: u128 = 79_228_162_514_264_337_593_543_950_336;

/// The number of the monomial 1: 2^96 - 1, whose last six digits to base 65,536 are 65,535 each.
const ONE: u128 = 79_228_162_514_264_337_593_543_950_335;

/// A monomial in six variables, whose exponents have a sum of at most 65,535. Contracts see it as its six exponents.
///
/// In a ring of fewer variables the exponents past its variables are 0. The order is the degree reverse lexicographic
/// one (Cox, Little, O'Shea, "Ideals, Varieties, and Algorithms", chapter 2, section 2).
///
/// It is kept as one number of seven digits to base 65,536: the sum of the exponents, and then for each variable, the
/// last one first, what its exponent misses up to 65,535. So monomials compare as their numbers do, and those of
/// products and quotients take one addition and one subtraction.
#[derive(Clone, Copy, Debug, Hash)]
pub struct Mono {
    packed: u128,
}

impl Model for Mono {
    ghost use Rattle.sf_algebra.specs.Monomials.{Monomial};
    ghost use Rattle.sf_algebra.specs.Numbers.{monomial_number};
    ghost use Rattle.sf_mono.specs.PackedNumbers.{unpacked, IsPacked};

    ghost Value = { Monomial };

    ghost view = { λ a. unpacked a.packed };

    ghost invariant = { λ a. IsPacked a.packed };

    ghost inverse = { λ a. record { packed = monomial_number a } };
}

/// The number, with a digit more: what an exponent misses up to 65,535.
#[inline]
fn with_digit(number: u128, exponent: u16) -> u128
    requires { number < 2 ^ 96 }
    ensures { result ≡ with_digit number (65535 - exponent) }
{
    number * 65_536 + (65_535 - exponent) as u128
}

impl Mono {
    /// The monomial 1.
    #[inline]
    pub fn one() -> Mono
        ensures one { result ≡ one }
    {
        Mono { packed: ONE }
    }

    /// The monomial with these exponents, whose sum is `total`.
    #[inline]
    fn packed(total: u32, exponents: [u16; 6]) -> Mono
        requires total { total ≡ exponent_sum (from_exponents exponents) }
        requires fits { total ≤ GREATEST_SUM }
        ensures { result ≡ from_exponents exponents }
    {
        let [e1, e2, e3, e4, e5, e6] = exponents;
        let last = with_digit(with_digit(total as u128, e6), e5);
        let middle = with_digit(with_digit(last, e4), e3);
        Mono {
            packed: with_digit(with_digit(middle, e2), e1),
        }
    }

    /// The monomial with these exponents, or `None` exactly where their sum is above 65,535.
    pub fn from_exponents(exponents: [u16; 6]) -> Option<Mono>
        ensures fits { IsSome result ↔ (sum exponents ≤ GREATEST_SUM) }
        ensures value { IfSome result (λ a. a ≡ from_exponents exponents) }
    {
        let [e1, e2, e3, e4, e5, e6] = exponents;
        let total = e1 as u32 + e2 as u32 + e3 as u32 + e4 as u32 + e5 as u32 + e6 as u32;
        if total <= GREATEST_SUM {
            Some(Mono::packed(total, exponents))
        } else {
            None
        }
    }

    /// The exponents, the first variable's first.
    #[inline]
    fn exponents(self) -> [u16; 6]
        ensures { result ≡ exponents self }
    {
        let from_e1 = self.packed;
        let from_e2 = from_e1 / 65_536;
        let from_e3 = from_e2 / 65_536;
        let from_e4 = from_e3 / 65_536;
        let from_e5 = from_e4 / 65_536;
        let from_e6 = from_e5 / 65_536;
        [
            65_535 - (from_e1 % 65_536) as u16,
            65_535 - (from_e2 % 65_536) as u16,
            65_535 - (from_e3 % 65_536) as u16,
            65_535 - (from_e4 % 65_536) as u16,
            65_535 - (from_e5 % 65_536) as u16,
            65_535 - (from_e6 % 65_536) as u16,
        ]
    }

    /// The exponent of the variable at place `i`, counted from 0.
    #[inline]
    pub fn exponent(self, i: usize) -> u16
        requires { i < VARIABLES }
        ensures exponent { result ≡ slice_index (exponents self) i }
    {
        self.exponents()[i]
    }

    /// The sum of the exponents.
    #[inline]
    pub fn sum(self) -> u32
        ensures sum { result ≡ exponent_sum self }
        ensures bounded { result ≤ GREATEST_SUM }
    {
        (self.packed / SUM_PLACE) as u32
    }

    /// The product, whose exponents are the sums of the factors' exponents.
    ///
    /// It fits where the sums of the factors' exponents add to at most 65,535.
    #[inline]
    pub fn mul(self, other: Mono) -> Mono
        requires fits { exponent_sum self + exponent_sum other ≤ GREATEST_SUM }
        ensures product { result ≡ product self other }
    {
        Mono {
            packed: self.packed + other.packed - ONE,
        }
    }

    /// Whether this monomial divides the other one: no exponent is greater than the other's.
    pub fn divides(self, other: Mono) -> bool
        ensures divides { IsTrue result ↔ Divides self other }
    {
        let [a1, a2, a3, a4, a5, a6] = self.exponents();
        let [b1, b2, b3, b4, b5, b6] = other.exponents();
        a1 <= b1 && a2 <= b2 && a3 <= b3 && a4 <= b4 && a5 <= b5 && a6 <= b6
    }

    /// This monomial divided by the other one, which divides it.
    #[inline]
    pub fn quotient(self, other: Mono) -> Mono
        requires divisor { Divides other self }
        ensures quotient { result ≡ quotient self other }
    {
        Mono {
            packed: self.packed + ONE - other.packed,
        }
    }

    /// The least common multiple, whose exponents are the greater ones.
    ///
    /// It fits where the sum of its exponents is at most 65,535.
    pub fn lcm(self, other: Mono) -> Mono
        requires fits { exponent_sum (lcm self other) ≤ GREATEST_SUM }
        ensures lcm { result ≡ lcm self other }
    {
        let [a1, a2, a3, a4, a5, a6] = self.exponents();
        let [b1, b2, b3, b4, b5, b6] = other.exponents();
        let (e1, e2, e3) = (a1.max(b1), a2.max(b2), a3.max(b3));
        let (e4, e5, e6) = (a4.max(b4), a5.max(b5), a6.max(b6));
        let total = e1 as u32 + e2 as u32 + e3 as u32 + e4 as u32 + e5 as u32 + e6 as u32;
        Mono::packed(total, [e1, e2, e3, e4, e5, e6])
    }
}

impl PartialEq for Mono {
    ghost eq = { same_exponents };

    ghost laws = { Prim.search (comparing, rules) };

    #[inline]
    fn eq(&self, other: &Mono) -> bool {
        self.packed == other.packed
    }
}

impl Eq for Mono {
    ghost laws = { Prim.search (comparing, rules) };
}

impl Ord for Mono {
    ghost cmp = { monomial_cmp ones };

    ghost total = { monomial_cmp_total ones };

    ghost matches_partial_cmp = { λ a b. refl };

    ghost matches_eq = { same_exponents-monomial_cmp ones };

    #[inline]
    fn cmp(&self, other: &Mono) -> Ordering {
        self.packed.cmp(&other.packed)
    }
}

impl PartialOrd for Mono {
    ghost partial_cmp = { as_partial_cmp (monomial_cmp ones) };

    ghost laws = { partial_order_from_agreeing_total (monomial_cmp ones) (monomial_cmp_total ones) (λ a b. refl) (same_exponents-monomial_cmp ones) };

    #[inline]
    fn partial_cmp(&self, other: &Mono) -> Option<Ordering> {
        Some(self.cmp(other))
    }
}
