//! Laws of exact arithmetic that proofs cite, each stated once.
//!
//! Family: numbers. It stands on nothing; the other crates of numbers, and the proofs of rows, cuts, certificates
//! and the search that need its laws, stand on it.
//!
//! `Integers` has the ring laws of ℤ, `Order` its order with products. `Rings` has commutative rings
//! and a solver: an equation between polynomials is one line that computes. `Ordered` has ordered
//! rings, and `Claims` comparisons from comparisons with factors, by computation too. `Sums` has
//! finite sums over ranges and lists, their exchange and weak duality; `Divisors` and `Lowest`
//! greatest common divisors and lowest terms. `docs/ALGEBRA.md` shows how each is used.
//!
//! No program calls this crate: proofs import its lemmas.
#![tactic(auto)]

ghost use Rattle.algebra.specs.Laws.{LowestTermsAreUnique, WeakDuality};

/// Two fractions in lowest terms that are equal have the same numerator and denominator.
pub fn lowest_terms_are_unique()
    ensures { LowestTermsAreUnique }
{}

/// Where `y A` is at most `c`, `A x` is `b` and `x` is at least 0, `y b` is at most `c x`.
pub fn weak_duality()
    ensures { WeakDuality }
{}
