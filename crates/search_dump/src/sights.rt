//! What a widget sees: a part of a text, and the names of tags and marks that the widget knows.

use text_index::{Names, View};
use text_model::TextStore;

/// A view with the names of tags and marks that its widget knows.
#[derive(Drop)]
pub struct Sight<'a, S: TextStore> {
    pub view: &'a View<'a, S>,
    pub names: &'a Names<'a>,
}
