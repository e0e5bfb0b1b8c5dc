//! The subcommands of `mark`, except `mark unset`, and the marks that a command may displace.

ghost use Rattle.std.specs.Prelude.{◌≡◌, length, chars, ◌<◌};
ghost use Rattle.text_model.specs.LimitTable.{LimitTable};
ghost use Rattle.tcl_words.specs.Unread.{texts_of};
ghost use Rattle.documents.specs.Promise.{Gives, Does};
ghost use Rattle.documents.specs.MarksTold.{mark_key, own_keys, watched, AreWatched, TakesMarksBut};
ghost use Rattle.documents.specs.WellFormed.{IsWellFormedDocument};
ghost use Rattle.peers.specs.Commands.{done, is_frugal};
ghost use Rattle.std.specs.Prelude.{ℕ, List, true, is_ok, flat_map, map, take, IfOk};
ghost use Rattle.peers.specs.Marks.{mark_set, mark_gravity, mark_names_of, mark_answer, origin_at, mark_next};
ghost use Rattle.peers.specs.Marks.{mark_previous};
ghost use Rattle.peers.specs.Requests.{called, widget_of, words_of};

use crate::requests::Request;
use command_effects::{Answer, Fault, read_gravity};
use command_table::Command;
use documents::{Document, MarkList};
use mark_table::{Origin, WidgetMark};
use std::alloc::AllocError;
use text_model::{Place, TextStore};

/// `W mark set M I` (text(n), "mark set").
pub fn mark_set<S: TextStore>(
    document: &mut Document<S>,
    request: &Request<'_>,
) -> Result<Answer, Fault>
    requires shown { request.now.caller.seat < length document.old.widgets }
    ensures { Does request.now.caller.limits.now document.old document.new result
        (mark_set request.now.caller.limits.now document.old (widget_of document.old request.now) request.now.position
        (words_of request.now)) }
{
    let (name, word) = request.two()?;
    let seat = request.caller.seat;
    let place = document.seek(seat, request.position + 1, word)?;
    let offset = document.mark_offset(seat, name, place);
    document.set_mark(request.caller.limits, seat, name, offset)
}

/// `W mark gravity M ?left or right?` (text(n), "mark gravity").
pub fn mark_gravity<S: TextStore>(
    document: &mut Document<S>,
    request: &Request<'_>,
) -> Result<Answer, Fault>
    requires shown { request.now.caller.seat < length document.old.widgets }
    ensures { (limits : LimitTable) → Does limits document.old document.new result
        (mark_gravity document.old (widget_of document.old request.now) request.now.position (words_of request.now)) }
{
    let (name, word) = request.one_or_two()?;
    let seat = request.caller.seat;
    let Some(place) = document.place_named(seat, name) else {
        return Err(Fault::NoSuchMark(request.position));
    };
    let Some(word) = word else {
        return Ok(Answer::Text(document.gravity_text(place.gravity)?));
    };
    let Some(gravity) = read_gravity(word) else {
        return Err(Fault::BadGravity(request.position + 1));
    };
    document.put_mark(seat, name, Place { gravity, ..place })
}

/// `W mark names` (text(n), "mark names").
pub fn mark_names<S: TextStore>(document: &Document<S>) -> Result<Answer, Fault>
    ensures { Gives result (mark_names_of document.now) }
{
    Ok(Answer::Text(document.all_marks()?))
}

/// The name of a mark, if there is one.
fn mark_answer<S: TextStore>(
    document: &Document<S>,
    mark: Option<WidgetMark>,
) -> Result<Answer, Fault>
    ensures { Gives result (mark_answer document.now mark) }
{
    match mark {
        None => Ok(Answer::Empty),
        Some(mark) => Ok(Answer::Text(document.mark_name(mark)?)),
    }
}

/// Where a walk begins: at the mark whose name the whole word is, if the widget can use it, else at the place of the
/// index.
fn origin_at<S: TextStore>(
    document: &Document<S>,
    request: &Request<'_>,
    word: &str,
) -> Result<Origin, Fault>
    requires shown { request.now.caller.seat < length document.now.widgets }
    ensures { Gives result
        (origin_at document.now (widget_of document.now request.now) request.now.position (chars word.now)) }
{
    let seat = request.caller.seat;
    let Some(mark) = document.find_mark(word) else {
        let place = document.place_at(seat, request.position, word)?;
        return Ok(Origin::Place(place));
    };
    if document.shows_mark(seat, mark) {
        Ok(Origin::Mark(mark))
    } else {
        Err(Fault::BadIndex(request.position))
    }
}

/// `W mark next I` (text(n), "mark next").
pub fn mark_next<S: TextStore>(
    document: &Document<S>,
    request: &Request<'_>,
) -> Result<Answer, Fault>
    requires shown { request.now.caller.seat < length document.now.widgets }
    ensures { Gives result
        (mark_next document.now (widget_of document.now request.now) request.now.position (words_of request.now)) }
{
    let word = request.one()?;
    let origin = origin_at(document, request, word)?;
    mark_answer(document, document.next_mark(request.caller.seat, origin))
}

/// `W mark previous I` (text(n), "mark previous").
pub fn mark_previous<S: TextStore>(
    document: &Document<S>,
    request: &Request<'_>,
) -> Result<Answer, Fault>
    requires shown { request.now.caller.seat < length document.now.widgets }
    ensures { Gives result
        (mark_previous document.now (widget_of document.now request.now) request.now.position (words_of request.now)) }
{
    let word = request.one()?;
    let origin = origin_at(document, request, word)?;
    mark_answer(
        document,
        document.previous_mark(request.caller.seat, origin),
    )
}

/// Returns the marks that a command of a widget may displace, as they are before it: by what it does, or by the names
/// among its arguments.
pub fn marks_before<S: TextStore>(
    document: &Document<S>,
    command: Command,
    request: &Request<'_>,
) -> Result<MarkList, AllocError>
    requires { request.now.caller.seat < length document.now.widgets }
    ensures watched { (limits : LimitTable) → IsWellFormedDocument limits document.now →
        IfOk result (λ marks. AreWatched document.now marks) }
    ensures covers { (windows : List (List ℕ)) → IsWellFormedDocument request.now.caller.limits.now document.now →
        IfOk result (λ marks.
        TakesMarksBut marks document.now (done command document.now (called windows document.now request.now))) }
    ensures frugal { is_frugal command ≡ true → is_ok result ≡ true }
{
    match command {
        Command::Replace => document.list_mark(request.caller.seat, "insert"),
        Command::EditUndo | Command::EditRedo => document.list_marks(),
        Command::MarkSet | Command::MarkGravity => first_mark(document, request),
        Command::MarkUnset => document.list_shared_marks(request.arguments),
        Command::PeerCreate => new_marks(document, request.arguments),
        _ => Ok(MarkList::new(document.allocator())),
    }
}

/// Returns the mark that the first argument names.
fn first_mark<S: TextStore>(
    document: &Document<S>,
    request: &Request<'_>,
) -> Result<MarkList, AllocError>
    requires { request.now.caller.seat < length document.now.widgets }
    ensures { IfOk result (λ marks. marks ≡ map (watched document.now)
        (map (mark_key (widget_of document.now request.now)) (take 1 (words_of request.now)))) }
{
    match request.arguments {
        [name, ..] => document.list_mark(request.caller.seat, name.as_str()),
        [] => Ok(MarkList::new(document.allocator())),
    }
}

/// Returns the marks that a widget of the name that is the first of some arguments has.
fn new_marks<S: TextStore>(
    document: &Document<S>,
    arguments: &[String],
) -> Result<MarkList, AllocError>
    ensures { IfOk result (λ marks. marks ≡ map (watched document.now)
        (flat_map own_keys (take 1 (texts_of arguments.now)))) }
{
    match arguments {
        [name, ..] => document.list_own_marks(name.as_str()),
        [] => Ok(MarkList::new(document.allocator())),
    }
}
