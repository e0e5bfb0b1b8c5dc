//! The marks that the widgets of a document share, and the order of the marks that a widget can use.
#![tactic(auto)]

mod faults;
mod marks;
mod order;
mod walk;

pub use faults::NoSuchMark;
pub use marks::MarkTable;
pub use order::{MarkView, Origin, Shown, WidgetMark};
