//! Who calls a command.

ghost use Rattle.std.specs.Prelude.{◌≡◌};
ghost use Rattle.command_effects.specs.Settings.{recording_of};

use command_effects::DocumentSettings;
use edit_ops::EditRules;
use std::alloc::Global;
use text_model::Limits;

/// Who calls a command of a widget: the widget, by its seat, the limits that it keeps within, and whether it follows
/// the text, so that the command reports what it changes.
#[derive(Clone, Copy)]
pub struct Caller<'a> {
    pub limits: &'a Limits,
    pub seat: usize,
    pub follows: bool,
}

impl Caller<'_> {
    /// Returns the rules by which this caller edits a document with these settings.
    pub(crate) fn rules(&self, alloc: Global, settings: DocumentSettings) -> EditRules<'_>
        ensures alloc { result.alloc ≡ alloc }
        ensures limits { result.limits.now ≡ self.now.limits.now }
        ensures recording { result.recording ≡ recording_of settings }
        ensures follows { result.follows ≡ self.now.follows }
    {
        EditRules {
            alloc,
            limits: self.limits,
            recording: settings.recording(),
            follows: self.follows,
        }
    }
}
