//! A text to be inserted, with the tag slots of its characters or without.

ghost use Rattle.std.specs.Prelude.{◌<◌};

use text_model::{TagSet, Text};

/// A text to be put in, with the slots of each of its characters; without them it gets those that the characters on
/// both sides of it have.
#[derive(Drop)]
pub struct SlottedText {
    pub text: Text,
    pub slots: Option<TagSet>,
}
