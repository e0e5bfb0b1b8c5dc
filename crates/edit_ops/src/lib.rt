//! Plans of edits: what a command does to a text, its marks, the anchors of the widgets that show it and the history,
//! as a whole or not at all.
#![tactic(auto)]

mod anchors;
mod changes;
mod deletions;
mod deltas;
mod faults;
mod hunks;
mod inserted;
mod insertions;
pub mod laws;
mod orders;
mod outlines;
mod part_hunks;
mod plans;
mod replacements;
mod reversals;
mod runs;
mod slot_runs;
mod slotted_texts;
mod spans;
mod spot_walks;
mod spots;
mod tagging;
mod texts;
mod within;

pub use anchors::{Anchors, anchors_stand};
pub use changes::{ChangeList, TextChange, tell};
pub use deletions::plan_delete;
pub use deltas::Delta;
pub use faults::EditFault;
pub use hunks::{Hunk, push_replacement};
pub use insertions::{count_of, plan_insert};
pub use plans::{Effects, Notes, Plan, Recording, commit};
pub use replacements::plan_replace;
pub use reversals::{plan_redo, plan_undo};
pub use runs::union;
pub use slot_runs::SlotRun;
pub use slotted_texts::SlottedText;
pub use spans::Span;
pub use spots::Spot;
pub use tagging::{plan_clear, plan_tag};
pub use texts::{EditRules, EditedText, Target};
pub use within::{delete_within, insert_within};
