//! The test of whether a character belongs to a word: a letter, a decimal digit or an underscore.

ghost use Rattle.std.specs.Prelude.{◌≡◌};
ghost use Rattle.text_index.specs.Words.{is_word};
ghost use Rattle.text_index.specs.WordRows.{newline-is-no-word};

use text_model::CharacterTest;
use unicode::properties::{GeneralCategory, GeneralCategoryGroup};

/// Whether a character makes words: a letter or a decimal digit of any script, or an underscore (The Unicode Standard,
/// general categories L and Nd).
pub fn is_word(character: char) -> bool
    ensures { result ≡ is_word character }
{
    let category = GeneralCategory::for_char(character);
    GeneralCategoryGroup::Letter.contains(category)
        || category == GeneralCategory::DecimalNumber
        || character == '_'
}

/// The test that characters of words pass.
pub struct WordTest;

impl CharacterTest for WordTest {
    ghost test = { is_word };

    fn passes(character: char) -> bool {
        is_word(character)
    }

    ghost stops_at_newline = { newline-is-no-word };
}
