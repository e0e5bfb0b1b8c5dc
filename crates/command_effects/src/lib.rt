//! What the commands of a text widget do and answer: their answers and faults, their words as lists and ranges, and
//! edits of a store together with the tables of its tags and its marks.
#![tactic(auto)]

mod answers;
mod edits;
mod lists;
mod marking;
mod ranges;
mod settings;
mod tagged_edits;
mod tagging;
mod words;

pub use answers::{Answer, Fault};
pub use command_table::is_word;
pub use edits::{clear_slots, prepare_drop, put_mark, put_widget_marks, set_slot, take_marks};
pub use lists::{Pair, pairs_at};
pub use marking::{gravity_word, make_mark, numbers_named, read_gravity, unset_names};
pub use ranges::{span_between, spans_of};
pub use settings::{DocumentSettings, Settings, boolean_at};
pub use tagged_edits::{plan_pairs, plan_replacement, tag_spans};
pub use tagging::{delete_names, deleted_slots, find_tag, own_slot};
pub use words::is_among;
