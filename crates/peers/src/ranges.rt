//! Reads a run of words as indices.

ghost use Rattle.std.specs.Prelude.{◌≡◌, ◌≢◌, ◌+◌, ◌-◌, ◌≤◌, length, Ok, Err, IfOk, IfErr, ◌<◌};
ghost use Rattle.std.specs.List.{All};
ghost use Rattle.tcl_words.specs.Unread.{texts_of};
ghost use Rattle.command_effects.specs.declared.answers.Fault.TheVariants.{Memory};
ghost use Rattle.peers.specs.Ranges.{places_at};
ghost use Rattle.documents.specs.Views.{shown};
ghost use Rattle.documents.specs.Documents.{widget_at};

use command_effects::Fault;
use documents::Document;
use smallvec::SmallVec;
use text_model::TextStore;

/// Returns the places of indices, the first of which is at a position. Two places are kept without an allocation.
pub fn places_at<S: TextStore>(
    document: &mut Document<S>,
    seat: usize,
    position: usize,
    words: &[String],
) -> Result<SmallVec<usize, 2>, Fault>
    requires shown { seat < length document.old.widgets }
    requires near { position + length words.now ≤ usize.MAX }
    ensures same { document.new ≡ document.old }
    ensures ok { IfOk result (λ places.
        places_at document.old (widget_at document.old seat) position (texts_of words.now) ≡ Ok places.items) }
    ensures err { IfErr result (λ fault. fault ≢ Memory →
        places_at document.old (widget_at document.old seat) position (texts_of words.now) ≡ Err fault) }
    ensures within { IfOk result (λ places. All (λ place. place
        ≤ length (shown document.old (widget_at document.old seat))) places.items) }
{
    let mut places = SmallVec::with_capacity(document.allocator(), words.len())?;
    for (index, word) in words.iter().enumerate() {
        let place = document.seek(seat, position + index, word.as_str())?;
        places.push(place)?;
    }
    Ok(places)
}
