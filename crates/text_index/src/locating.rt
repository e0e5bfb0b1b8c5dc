//! Reads a word as an index and returns the place in a view that it stands for.

ghost use Rattle.std.specs.Prelude.{◌≡◌, ◌≢◌, ◌≤◌, ◌<◌, ◌+◌, length, chars, IfOk};
ghost use Rattle.text_model.specs.declared.limits.TheConstants.Limits.{MOST_WIDGETS};
ghost use Rattle.text_index.specs.Parts.{part_of};
ghost use Rattle.text_index.specs.Views.{shown, IsView};
ghost use Rattle.text_index.specs.Words.{is_word};
ghost use Rattle.text_index.specs.Meanings.{shown_meanings, word_value};
ghost use Rattle.index_grammar.specs.declared.faults.IndexFault.TheVariants.{Memory};

use crate::values::place_of;
use crate::views::View;
use index_grammar::{Base, IndexFault, Names, find_base};
use text_model::TextStore;

/// The place in a view that a word stands for, counted from the start of the view (text(n), "INDICES").
///
/// "bad text index" where the word is no index, or names a mark that the view can't use; "no tagged characters" where
/// no character of the view has the tag that it names. It allocates nothing.
#[inline(always)]
pub fn locate<S: TextStore>(
    word: &str,
    names: &Names,
    view: &View<'_, S>,
) -> Result<usize, IndexFault>
    requires widget { names.now.widget.0 < MOST_WIDGETS }
    requires room { length (S.content view.now.store.now).cells < usize.MAX }
    ensures value { result ≢ Err Memory → result ≡ word_value is_word
        (shown_meanings names.now.marks.now.marks names.now.tags.now.tags names.now.widget.0
        (part_of view.now))
        (shown (part_of view.now)) (chars word.now) }
    ensures within { IfOk result (λ place. view.now.start + place ≤ view.now.end) }
{
    let Some((base, rest)) = find_base(word, names) else {
        return Err(IndexFault::BadIndex);
    };
    place_of(view, base, rest.as_bytes())
}

/// Returns what `locate` does in the view from one offset to another. If the view begins with the text, the store looks
/// up the line that the index names, so that the calls after this one find it without a search.
#[inline(always)]
pub fn seek<S: TextStore>(
    word: &str,
    names: &Names,
    store: &mut S,
    start: usize,
    end: usize,
) -> Result<usize, IndexFault>
    requires view { IsView (record { content = S.content store.old; start = start; end = end }) }
    requires widget { names.now.widget.0 < MOST_WIDGETS }
    requires room { length (S.content store.old).cells < usize.MAX }
    ensures same { S.content store.new ≡ S.content store.old }
    ensures value { result ≢ Err Memory → result ≡ word_value is_word
        (shown_meanings names.now.marks.now.marks names.now.tags.now.tags names.now.widget.0
        (record { content = S.content store.old; start = start; end = end }))
        (shown (record { content = S.content store.old; start = start; end = end })) (chars word.now) }
    ensures within { IfOk result (λ place. start + place ≤ end) }
{
    let Some((base, rest)) = find_base(word, names) else {
        return Err(IndexFault::BadIndex);
    };
    if start == 0 {
        seek_base(store, base);
    }
    place_of(&View::new(store, start, end), base, rest.as_bytes())
}

/// Has the store look up the line that the base of an index names.
#[inline(always)]
fn seek_base<S: TextStore>(store: &mut S, base: Base)
    ensures { S.content store.new ≡ S.content store.old }
{
    match base {
        Base::At(1, 0) => {}
        Base::At(line, _) | Base::LineEnd(line) => store.seek_line(line.saturating_sub(1)),
        _ => {}
    }
}
