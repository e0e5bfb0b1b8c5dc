//! The settings of a new peer, and the command `peer names`.

ghost use Rattle.std.specs.Prelude.{◌≡◌, ◌<◌, ◌+◌, ◌≤◌, false, length, IfOk};
ghost use Rattle.text_model.specs.Lines.{lines};
ghost use Rattle.tcl_words.specs.Unread.{texts_of};
ghost use Rattle.command_effects.specs.Settings.{is_behind};
ghost use Rattle.reports.specs.Cells.{characters};
ghost use Rattle.documents.specs.Documents.{widget_at};
ghost use Rattle.documents.specs.Options.{AreLines};
ghost use Rattle.documents.specs.Promise.{Gives};
ghost use Rattle.peers.specs.Options.{settings_given};
ghost use Rattle.peers.specs.Widgets.{peer_names, peer_settings};

use crate::options::settings_given;
use command_effects::{Answer, Fault, Settings};
use documents::Document;
use text_model::TextStore;

/// The settings of a further widget: those of the one that makes it, but for whether it is disabled, and then the
/// values of options, of which the first stands at a position.
pub fn peer_settings<S: TextStore>(
    document: &Document<S>,
    seat: usize,
    position: usize,
    words: &[String],
) -> Result<Settings, Fault>
    requires shown { seat < length document.now.widgets }
    requires near { position + length words.now ≤ usize.MAX }
    ensures value { result ≡ settings_given document.now position (texts_of words.now)
        (peer_settings document.now (widget_at document.now seat)) }
    ensures lines { IfOk result (AreLines (lines (characters document.now.cells))) }
    ensures ordered { IfOk result (λ settings. is_behind settings.start settings.end ≡ false) }
{
    let mut settings = document.settings(seat);
    settings.disabled = false;
    settings_given(settings, position, words, document.lines())
}

/// `W peer names` (text(n), "PEER WIDGETS").
pub fn peer_names<S: TextStore>(document: &Document<S>, seat: usize) -> Result<Answer, Fault>
    requires shown { seat < length document.now.widgets }
    ensures { Gives result (peer_names document.now (widget_at document.now seat)) }
{
    Ok(Answer::Text(document.other_widgets(seat)?))
}
