//! The trait of tests that decide which characters make a run.

ghost use Rattle.std.specs.Prelude.{◌≡◌, ℕ, Bool, false};

/// Which characters make a run. No newline does, so that a run lies in one line.
pub trait CharacterTest {
    ghost test: { ℕ → Bool };

    /// Whether a character is one of these.
    fn passes(character: char) -> bool
        ensures { result ≡ test character };

    ghost stops_at_newline: { test 10 ≡ false };
}
