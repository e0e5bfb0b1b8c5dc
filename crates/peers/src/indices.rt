//! The commands `index` and `compare`.

ghost use Rattle.std.specs.Prelude.{◌≡◌, ◌<◌, length};
ghost use Rattle.documents.specs.Promise.{Gives};
ghost use Rattle.peers.specs.Indices.{index, compare};
ghost use Rattle.peers.specs.Requests.{widget_of, words_of};

use crate::comparisons::Comparison;
use crate::requests::Request;
use command_effects::{Answer, Fault};
use documents::Document;
use text_model::TextStore;

/// `W index I` (text(n), "index").
#[inline(always)]
pub fn index<S: TextStore>(
    document: &mut Document<S>,
    request: &Request<'_>,
) -> Result<Answer, Fault>
    requires shown { request.now.caller.seat < length document.old.widgets }
    ensures same { document.new ≡ document.old }
    ensures value { Gives result
        (index document.old (widget_of document.old request.now) request.now.position (words_of request.now)) }
{
    let word = request.one()?;
    let seat = request.caller.seat;
    let place = document.seek(seat, request.position, word)?;
    Ok(Answer::Text(document.position_of(seat, place)?))
}

/// `W compare A op B` (text(n), "compare").
pub fn compare<S: TextStore>(
    document: &mut Document<S>,
    request: &Request<'_>,
) -> Result<Answer, Fault>
    requires shown { request.now.caller.seat < length document.old.widgets }
    ensures same { document.new ≡ document.old }
    ensures value { Gives result
        (compare document.old (widget_of document.old request.now) request.now.position (words_of request.now)) }
{
    let (left, operator, right) = request.three()?;
    let seat = request.caller.seat;
    let from = document.seek(seat, request.position, left)?;
    let bad_comparison = Fault::BadComparison(request.position + 1);
    let comparison = Comparison::read(operator).ok_or(bad_comparison)?;
    let to = document.seek(seat, request.position + 2, right)?;
    Ok(Answer::Flag(comparison.holds(from, to)))
}
