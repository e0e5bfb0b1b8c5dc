//! The commands `configure` and `cget`.

ghost use Rattle.std.specs.Prelude.{◌≡◌, ◌+◌, ◌≤◌, ◌<◌, length, false, IfOk};
ghost use Rattle.text_model.specs.LimitTable.{LimitTable};
ghost use Rattle.tcl_words.specs.Unread.{texts_of};
ghost use Rattle.peers.specs.Options.{cget, configure};
ghost use Rattle.peers.specs.Requests.{widget_of, words_of};
ghost use Rattle.documents.specs.Promise.{Does, Gives};
ghost use Rattle.command_effects.specs.Settings.{is_behind, settings_checked, settings_read};
ghost use Rattle.command_effects.specs.Faults.{with_value};
ghost use Rattle.documents.specs.Options.{AreLines};

use crate::requests::Request;
use command_effects::{Answer, Fault, Settings};
use documents::Document;
use text_model::TextStore;

/// The settings with the values of options, of which the first stands at a position, for a document of so many lines:
/// each value is decided, and then whether the view begins after its end.
pub fn settings_given(
    settings: Settings,
    position: usize,
    words: &[String],
    lines: usize,
) -> Result<Settings, Fault>
    requires near { position + length words.now ≤ usize.MAX }
    requires lines { AreLines lines settings }
    ensures value { result ≡ with_value (settings_read lines position (texts_of words.now) settings) settings_checked }
    ensures lines { IfOk result (AreLines lines) }
    ensures ordered { IfOk result (λ settings. is_behind settings.start settings.end ≡ false) }
{
    let settings = settings.read(position, words, lines)?;
    settings.checked()
}

/// `W configure option value ?option value ..?` (text(n), "configure").
pub fn configure<S: TextStore>(
    document: &mut Document<S>,
    request: &Request<'_>,
) -> Result<Answer, Fault>
    requires shown { request.now.caller.seat < length document.old.widgets }
    ensures { (limits : LimitTable) → Does limits document.old document.new result
        (configure document.old (widget_of document.old request.now) request.now.position (words_of request.now)) }
{
    let seat = request.caller.seat;
    let lines = document.lines();
    let settings = settings_given(
        document.settings(seat),
        request.position,
        request.arguments,
        lines,
    )?;
    Ok(document.put_settings(seat, settings))
}

/// `W cget option` (text(n), "cget").
pub fn cget<S: TextStore>(document: &Document<S>, request: &Request<'_>) -> Result<Answer, Fault>
    requires shown { request.now.caller.seat < length document.now.widgets }
    ensures { Gives result (cget document.now (widget_of document.now request.now) (words_of request.now)) }
{
    let option = request.one()?;
    let settings = document.settings(request.caller.seat);
    Ok(settings.answer(document.allocator(), option)?)
}
