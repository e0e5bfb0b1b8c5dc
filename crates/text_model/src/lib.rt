//! Text as a list of tagged characters with marks as positions: what a text store keeps, and its plain form.
#![tactic(auto)]

mod beginnings;
mod cells;
mod character_test;
mod edits;
mod limits;
mod places;
mod plain_store;
mod slot_word;
mod store;
mod tag_set;
mod texts;

pub use beginnings::{count_characters, front_bytes};
pub use cells::Cell;
pub use character_test::CharacterTest;
pub use edits::{Edit, Step, StepList};
pub use limits::Limits;
pub use places::{Gravity, LineSpan, MarkNo, Place, TagSlot};
pub use plain_store::PlainStore;
pub use slot_word::SlotWord;
pub use store::TextStore;
pub use tag_set::{TagSet, WORDS};
pub use texts::Text;
