//! The command `edit modified`.

ghost use Rattle.std.specs.Prelude.{◌≢◌, Err};
ghost use Rattle.text_model.specs.LimitTable.{LimitTable};
ghost use Rattle.command_effects.specs.declared.answers.Fault.TheVariants.{Memory};
ghost use Rattle.peers.specs.History.{edit_modified};
ghost use Rattle.peers.specs.Requests.{words_of};
ghost use Rattle.documents.specs.Promise.{Does};

use crate::requests::Request;
use command_effects::{Answer, Fault, boolean_at};
use documents::Document;
use text_model::TextStore;

/// `W edit modified ?bool?` (text(n), "edit modified").
pub fn edit_modified<S: TextStore>(
    document: &mut Document<S>,
    request: &Request<'_>,
) -> Result<Answer, Fault>
    ensures does { (limits : LimitTable) → Does limits document.old document.new result
        (edit_modified document.old request.now.position (words_of request.now)) }
    ensures frugal { result ≢ Err Memory }
{
    let Some(word) = request.none_or_one()? else {
        return Ok(Answer::Flag(document.is_modified()));
    };
    let modified = boolean_at(request.position, word)?;
    Ok(document.set_modified(modified))
}
