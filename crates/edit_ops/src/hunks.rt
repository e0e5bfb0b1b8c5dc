//! Hunks: what becomes of an old text from one offset of it to another.

ghost use Rattle.std.specs.Prelude.{◌≡◌, ◌++◌, IfOk, OnOk};
ghost use Rattle.edit_ops.specs.Told.{replacing, taking};

use crate::spans::Span;
use std::alloc::{AllocError, Global};
use text_model::Text;

/// What becomes of an old text from one offset of it to another: a text replaces its characters, or is inserted between
/// two of them. Where the text is empty, the characters are deleted.
#[derive(Drop)]
pub struct Hunk {
    pub from: usize,
    pub to: usize,
    pub text: Text,
}

/// Adds the hunk that replaces the characters from one offset to another by a text, unless it does nothing.
pub fn push_replacement(
    hunks: &mut Vec<Hunk>,
    from: usize,
    to: usize,
    text: Text,
) -> Result<(), AllocError>
    ensures { OnOk result (hunks.new.items ≡ hunks.old.items ++ replacing from to text) }
{
    if to <= from && text.as_str().is_empty() {
        return Ok(());
    }
    hunks.push(Hunk { from, to, text })?;
    Ok(())
}

/// Returns the hunks that delete spans, of which the last comes first.
pub fn take_spans(alloc: Global, spans: Vec<Span>) -> Result<Vec<Hunk>, AllocError>
    ensures { IfOk result (λ hunks. hunks.items ≡ taking spans.items) }
{
    let mut spans = spans;
    spans.reverse();
    let mut hunks = Vec::with_capacity(alloc, spans.len())?;
    for span in spans {
        hunks.push(Hunk {
            from: span.from,
            to: span.to,
            text: Text::new(String::new(alloc)),
        })?;
    }
    Ok(hunks)
}
