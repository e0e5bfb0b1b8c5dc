//! The subcommands of `tag`, except `tag delete`.

ghost use Rattle.std.specs.Prelude.{◌≤◌, ◌<◌, length, chars, option_map, IfOk};
ghost use Rattle.text_model.specs.LimitTable.{LimitTable};
ghost use Rattle.documents.specs.Documents.{widget_at};
ghost use Rattle.documents.specs.Views.{shown};
ghost use Rattle.documents.specs.Promise.{Gives, Does};
ghost use Rattle.documents.specs.Told.{reply_of, IsTold};
ghost use Rattle.peers.specs.Requests.{widget_of, words_of};
ghost use Rattle.peers.specs.Tags.{tag_add, tag_remove, tag_names, tag_ranges_of, place_or, tag_nextrange};
ghost use Rattle.peers.specs.Tags.{tag_prevrange, tag_raise, tag_lower};

use crate::ranges::places_at;
use crate::requests::Request;
use command_effects::{Answer, Fault};
use documents::{Document, EditTold};
use text_model::TextStore;

/// `W tag add T I ?I ..?` (text(n), "tag add"). Returns what that changes.
pub fn tag_add<S: TextStore>(
    document: &mut Document<S>,
    request: &Request<'_>,
) -> Result<EditTold, Fault>
    requires shown { request.now.caller.seat < length document.old.widgets }
    ensures does { Does request.now.caller.limits.now document.old document.new (reply_of result)
        (tag_add request.now.caller.limits.now document.old (widget_of document.old request.now) request.now.position
        (words_of request.now)) }
    ensures told { IsTold request.now.caller.follows
        (tag_add request.now.caller.limits.now document.old (widget_of document.old request.now) request.now.position
        (words_of request.now)) document.old document.new result }
{
    let (name, words) = request.one_or_more()?;
    let places = places_at(document, request.caller.seat, request.position + 1, words)?;
    document.add_spans(&request.caller, name, &places)
}

/// `W tag remove T I ?I ..?` (text(n), "tag remove"). Returns what that changes.
pub fn tag_remove<S: TextStore>(
    document: &mut Document<S>,
    request: &Request<'_>,
) -> Result<EditTold, Fault>
    requires shown { request.now.caller.seat < length document.old.widgets }
    ensures does { (limits : LimitTable) → Does limits document.old document.new (reply_of result)
        (tag_remove document.old (widget_of document.old request.now) request.now.position (words_of request.now)) }
    ensures told { IsTold request.now.caller.follows
        (tag_remove document.old (widget_of document.old request.now) request.now.position (words_of request.now))
        document.old document.new result }
{
    let (name, words) = request.one_or_more()?;
    let places = places_at(document, request.caller.seat, request.position + 1, words)?;
    document.remove_spans(&request.caller, name, &places)
}

/// `W tag names ?I?` (text(n), "tag names").
pub fn tag_names<S: TextStore>(
    document: &Document<S>,
    request: &Request<'_>,
) -> Result<Answer, Fault>
    requires shown { request.now.caller.seat < length document.now.widgets }
    ensures { Gives result
        (tag_names document.now (widget_of document.now request.now) request.now.position (words_of request.now)) }
{
    let seat = request.caller.seat;
    match request.none_or_one()? {
        None => Ok(Answer::Text(document.all_tags()?)),
        Some(word) => {
            let place = document.place_at(seat, request.position, word)?;
            Ok(Answer::Text(document.tags_on(seat, place)?))
        }
    }
}

/// `W tag ranges T` (text(n), "tag ranges").
pub fn tag_ranges<S: TextStore>(
    document: &Document<S>,
    request: &Request<'_>,
) -> Result<Answer, Fault>
    requires shown { request.now.caller.seat < length document.now.widgets }
    ensures { Gives result (tag_ranges_of document.now (widget_of document.now request.now) (words_of request.now)) }
{
    let name = request.one()?;
    Ok(Answer::Text(document.ranges_of(request.caller.seat, name)?))
}

/// The place of a last index, or another one where it is left out.
pub fn place_or<S: TextStore>(
    document: &Document<S>,
    seat: usize,
    place: usize,
    position: usize,
    word: Option<&str>,
) -> Result<usize, Fault>
    requires shown { seat < length document.now.widgets }
    requires within { place ≤ length (shown document.now (widget_at document.now seat)) }
    ensures value { Gives result (place_or document.now (widget_at document.now seat) place position
        (option_map (λ word. chars word.now) word.entry)) }
    ensures within { IfOk result (λ place. place ≤ length (shown document.now (widget_at document.now seat))) }
{
    match word {
        None => Ok(place),
        Some(word) => document.place_at(seat, position, word),
    }
}

/// `W tag nextrange T A ?B?` (text(n), "tag nextrange"): the first range of a tag from one place on, if it begins
/// before another.
pub fn tag_nextrange<S: TextStore>(
    document: &Document<S>,
    request: &Request<'_>,
) -> Result<Answer, Fault>
    requires shown { request.now.caller.seat < length document.now.widgets }
    ensures { Gives result
        (tag_nextrange document.now (widget_of document.now request.now) request.now.position (words_of request.now)) }
{
    let (name, first, last) = request.two_or_three()?;
    let seat = request.caller.seat;
    let from = document.place_at(seat, request.position + 1, first)?;
    let to = place_or(
        document,
        seat,
        document.shown_len(seat),
        request.position + 2,
        last,
    )?;
    Ok(Answer::Text(document.next_listed(seat, name, from, to)?))
}

/// `W tag prevrange T A ?B?` (text(n), "tag prevrange"): the last range of a tag that begins before one place, if it
/// doesn't begin before another.
pub fn tag_prevrange<S: TextStore>(
    document: &Document<S>,
    request: &Request<'_>,
) -> Result<Answer, Fault>
    requires shown { request.now.caller.seat < length document.now.widgets }
    ensures { Gives result
        (tag_prevrange document.now (widget_of document.now request.now) request.now.position (words_of request.now)) }
{
    let (name, first, last) = request.two_or_three()?;
    let seat = request.caller.seat;
    let from = document.place_at(seat, request.position + 1, first)?;
    let to = place_or(document, seat, 0, request.position + 2, last)?;
    Ok(Answer::Text(document.previous_listed(seat, name, from, to)?))
}

/// `W tag raise T ?U?` (text(n), "tag raise").
pub fn tag_raise<S: TextStore>(
    document: &mut Document<S>,
    request: &Request<'_>,
) -> Result<Answer, Fault>
    ensures { (limits : LimitTable) → Does limits document.old document.new result
        (tag_raise document.old request.now.position (words_of request.now)) }
{
    let (name, above) = request.one_or_two()?;
    document.raise(request.position, name, above)
}

/// `W tag lower T ?U?` (text(n), "tag lower").
pub fn tag_lower<S: TextStore>(
    document: &mut Document<S>,
    request: &Request<'_>,
) -> Result<Answer, Fault>
    ensures { (limits : LimitTable) → Does limits document.old document.new result
        (tag_lower document.old request.now.position (words_of request.now)) }
{
    let (name, below) = request.one_or_two()?;
    document.lower(request.position, name, below)
}
