//! The trait of what can be added up over a list, from either end and in any grouping.

ghost use Rattle.std.specs.Prelude.{◌≡◌};

/// What can be added up over a list, from either end and in any grouping.
pub trait Summary: Copy {
    ghost nothing: { Self };

    ghost joined: { Self → Self → Self };

    ghost fits: { Self → Self → Type 0 };

    /// The sum of nothing.
    fn zero() -> Self
        ensures { result ≡ nothing };

    /// The sum of this and what comes behind it.
    fn plus(&self, other: &Self) -> Self
        requires { fits self.now other.now }
        ensures { result ≡ joined self.now other.now };

    ghost associative: { (first second third : Self) → joined (joined first second) third
        ≡ joined first (joined second third) };

    ghost zero_first: { (sum : Self) → joined nothing sum ≡ sum };

    ghost zero_last: { (sum : Self) → joined sum nothing ≡ sum };

    ghost commutative: { (first second : Self) → joined first second ≡ joined second first };
}
