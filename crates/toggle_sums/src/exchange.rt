//! The sums of the lines that are removed and of those that replace them, and how the slots toggled in both compare.

ghost use Rattle.std.proofs.Props.{props};
ghost use Rattle.std.specs.Prelude.{◌≡◌, false, true};
ghost use Rattle.toggle_sums.specs.Counts.{AreLevel, ArePart, HaveSameToggles, IsWithin};

use crate::sums::Sums;
use text_model::WORDS;

/// What is counted of lines that go and of those that come in their place. Both are compared once, for all the sums
/// that they change.
#[derive(Clone, Copy)]
pub struct Exchange<'a> {
    pub gone: &'a Sums<WORDS>,
    pub more: &'a Sums<WORDS>,
    /// Whether the same slots are toggled in both.
    pub is_level: bool,
    /// Whether each slot that is toggled in what goes is toggled in what comes too.
    pub is_within: bool,
    ghost level_told: { is_level ≡ true → AreLevel gone.now more.now } by { Prim.hlevel props },
    ghost within_told: { is_within ≡ true → ArePart gone.now.presence more.now.presence } by { Prim.hlevel props },
    ghost level_within: { is_within ≡ false → is_level ≡ false },
}

impl<'a> Exchange<'a> {
    /// Compares what goes with what comes.
    pub fn between(gone: &'a Sums<WORDS>, more: &'a Sums<WORDS>) -> Exchange<'a>
        ensures same { (result.gone.now ≡ gone.now) × (result.more.now ≡ more.now) }
        ensures level { HaveSameToggles gone.now more.now → result.is_level ≡ true }
        ensures within { IsWithin gone.now more.now → result.is_within ≡ true }
    {
        let is_level = gone.has_toggles_of(more);
        Exchange {
            gone,
            more,
            is_level,
            is_within: is_level || gone.is_within(more),
        }
    }
}
