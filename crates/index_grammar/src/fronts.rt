//! Finds the longest prefix of a word that names a mark, or the first or last character of a tag.

ghost use Rattle.std.specs.Prelude.{ℕ, ◌≡◌, ◌≢◌, ◌<◌, ◌≤◌, ◌+◌, ◌-◌, ◌++◌, None, Some, true, not, drop, length, chars};
ghost use Rattle.std.specs.Prelude.{List, slice_index, slice_get, option_map, encode_utf8_all};
ghost use Rattle.std.specs.Prelude.{MatchOption, IfSome};
ghost use Rattle.std.specs.List.{list_all};
ghost use Rattle.text_model.specs.declared.limits.TheConstants.Limits.{MOST_WIDGETS};
ghost use Rattle.index_grammar.specs.Characters.{is_break, closes};
ghost use Rattle.index_grammar.specs.Grammar.{marked, tagged, longest_front, saturated_base};
ghost use Rattle.index_grammar.specs.Names.{known_marks, known_tags};
ghost use Rattle.index_grammar.specs.Fronts.{named, names_in, IsBound};
ghost use Rattle.index_grammar.specs.Reading.{read_of, found_of};
ghost use Rattle.index_grammar.specs.Reading.{HasSlot};
ghost use Rattle.index_grammar.specs.declared.fronts.Form.TheVariants.{Mark, Tag};

use crate::indices::Base;
use crate::names::Names;
use crate::tokens::{closes, is_break};

/// Words of at most so many bytes have few fronts.
const SHORT: usize = 64;

/// What a front of a word can name.
#[derive(Clone, Copy)]
pub(crate) enum Form {
    Mark,
    Tag,
}

/// The mark that a front names.
fn find_mark(front: &str, names: &Names) -> Option<Base>
    requires { names.now.widget.0 < MOST_WIDGETS }
    ensures value { result ≡ marked (known_marks names.now.marks.now.marks names.now.widget.0) (chars front.now) }
    ensures saturated { option_map saturated_base result ≡ result }
    ensures slot { IfSome result HasSlot }
{
    Some(Base::Mark(names.mark(front)?))
}

/// The first or the last character of the tag that a front names, before `.first` or `.last`.
fn find_tag(front: &str, names: &Names) -> Option<Base>
    requires { names.now.widget.0 < MOST_WIDGETS }
    ensures value { result ≡ tagged (known_tags names.now.tags.now.tags names.now.widget.0) (chars front.now) }
    ensures saturated { option_map saturated_base result ≡ result }
    ensures slot { IfSome result HasSlot }
{
    if front.as_bytes().ends_with(b".first") {
        let name = &front[..front.len() - 6];
        return Some(Base::First(names.tag(name)?, name.len()));
    }
    if front.as_bytes().ends_with(b".last") {
        let name = &front[..front.len() - 5];
        return Some(Base::Last(names.tag(name)?, name.len()));
    }
    None
}

impl Form {
    /// What a front names.
    fn find(self, front: &str, names: &Names) -> Option<Base>
        requires { names.now.widget.0 < MOST_WIDGETS }
        ensures value { result ≡ named self names.now (chars front.now) }
        ensures saturated { option_map saturated_base result ≡ result }
        ensures slot { IfSome result HasSlot }
    {
        match self {
            Form::Mark => find_mark(front, names),
            Form::Tag => find_tag(front, names),
        }
    }

    /// What a front names, where no front with more than the most bytes names anything.
    fn find_within(self, front: &str, most: usize, names: &Names) -> Option<Base>
        requires widget { names.now.widget.0 < MOST_WIDGETS }
        requires unnamed { most < length front.now → named self names.now (chars front.now) ≡ None }
        ensures value { result ≡ named self names.now (chars front.now) }
        ensures saturated { option_map saturated_base result ≡ result }
        ensures slot { IfSome result HasSlot }
    {
        if front.len() > most {
            return None;
        }
        self.find(front, names)
    }

    /// How many names there are in the table that a form is about.
    fn count(self, names: &Names) -> usize
        ensures { result ≡ length (names_in self names.now) }
    {
        match self {
            Form::Mark => names.marks.len(),
            Form::Tag => names.tags.len(),
        }
    }

    /// The name at a place of that table.
    fn name<'a>(self, place: usize, names: &'a Names) -> &'a str
        requires { place < length (names_in self names.now) }
        ensures { slice_get (names_in self names.now) place ≡ Some (chars result.now) }
    {
        match self {
            Form::Mark => names.marks.name(place),
            Form::Tag => names.tags.name(place),
        }
    }

    /// With fewer bytes behind it than so many no closed front of a word names anything: all names are gone over once.
    fn fewest_behind(self, word: &str, names: &Names) -> usize
        ensures { IsBound (named self names.now) word.now (length word.now - result) }
    {
        match self {
            Form::Mark => behind_marks(word, names),
            Form::Tag => behind_tags(word, names),
        }
    }

    /// The most bytes that a closed front of a long word may have if it names something.
    #[cold]
    #[inline(never)]
    fn longest_by_names(self, word: &str, names: &Names) -> usize
        ensures { IsBound (named self names.now) word.now result }
    {
        if !has_many_fronts(word.as_bytes(), self.count(names)) {
            return word.len();
        }
        word.len().saturating_sub(self.fewest_behind(word, names))
    }

    /// The most bytes that a closed front of a word may have if it names something.
    fn longest(self, word: &str, names: &Names) -> usize
        ensures { IsBound (named self names.now) word.now result }
    {
        if word.len() <= SHORT {
            return word.len();
        }
        self.longest_by_names(word, names)
    }
}

/// Whether it takes longer to look up each front of a word than to go over so many names.
fn has_many_fronts(word: &[u8], names: usize) -> bool {
    // To go over a name takes as long as to hash some sixty bytes and to compare them.
    let most = word.len().saturating_mul(word.len()) / SHORT;
    if most <= names {
        return false;
    }
    let fronts = word.iter().filter(|byte| is_break(**byte)).count();
    fronts.saturating_mul(word.len()) / SHORT > names
}

/// What stands behind a name with its ending at the front of a word.
fn strip<'a>(word: &'a [u8], name: &[u8], ending: &[u8]) -> Option<&'a [u8]>
    ensures { MatchOption result ((rest : List ℕ) → word.now ≢ name.now ++ ending.now ++ rest)
        (λ rest. word.now ≡ name.now ++ ending.now ++ rest.now) }
{
    word.strip_prefix(name)?.strip_prefix(ending)
}

/// How many bytes of a word stand behind a name with its ending, where these are a closed front of it; else all.
fn count_behind(word: &[u8], name: &[u8], ending: &[u8]) -> usize
    ensures { (rest : List ℕ) → word.now ≡ name.now ++ ending.now ++ rest → closes rest ≡ true →
        result ≡ length rest }
{
    match strip(word, name, ending) {
        Some(rest) if closes(rest) => rest.len(),
        _ => word.len(),
    }
}

/// The fewest bytes of a word that stand behind a name of a table with an ending, where these are a closed front of
/// it; all, where none is.
fn behind_names(word: &str, form: Form, ending: &[u8], names: &Names) -> usize
    ensures { (place : ℕ) (name rest : List ℕ) → slice_get (names_in form names.now) place ≡ Some name →
        word.now ≡ encode_utf8_all name ++ ending.now ++ rest → closes rest ≡ true → result ≤ length rest }
{
    let mut fewest = word.len();
    for place in 0..form.count(names) {
        let name = form.name(place, names);
        fewest = fewest.min(count_behind(word.as_bytes(), name.as_bytes(), ending));
    }
    fewest
}

/// With fewer bytes behind it than so many no closed front of a word is a mark's name.
fn behind_marks(word: &str, names: &Names) -> usize
    ensures { IsBound (named Mark names.now) word.now (length word.now - result) }
{
    let insert = count_behind(word.as_bytes(), b"insert", b"");
    let current = count_behind(word.as_bytes(), b"current", b"");
    behind_names(word, Form::Mark, b"", names)
        .min(insert)
        .min(current)
}

/// With fewer bytes behind it than so many no closed front of a word is a tag's name before `.first` or `.last`.
fn behind_tags(word: &str, names: &Names) -> usize
    ensures { IsBound (named Tag names.now) word.now (length word.now - result) }
{
    let first = behind_names(word, Form::Tag, b".first", names);
    first.min(behind_names(word, Form::Tag, b".last", names))
}

/// Where the last blank, `+` or `-` of a text stands.
fn last_break(text: &[u8]) -> Option<usize>
    ensures { MatchOption result (list_all (λ c. not (is_break c)) text.now ≡ true)
        (λ at. (at < length text.now) × (is_break (slice_index text.now at) ≡ true)
        × (list_all (λ c. not (is_break c)) (drop (at + 1) text.now) ≡ true)) }
{
    let mut at = text.len();
    while at > 0 {
        at -= 1;
        if is_break(text[at]) {
            return Some(at);
        }
    }
    None
}

/// The longest closed front of a word that names something, and what stands behind it.
pub(crate) fn find_longest<'a>(word: &'a str, form: Form, names: &Names) -> Option<(Base, &'a str)>
    requires { names.now.widget.0 < MOST_WIDGETS }
    ensures value { read_of (chars word.now) (longest_front (named form names.now) (chars word.now))
        ≡ found_of result }
    ensures slot { IfSome result (λ found. HasSlot found.0) }
{
    let most = form.longest(word, names);
    let mut end = word.len();
    loop {
        let front = &word[..end];
        if let Some(base) = form.find_within(front, most, names) {
            return Some((base, &word[end..]));
        }
        match last_break(front.as_bytes()) {
            Some(at) => end = at,
            None => return None,
        }
    }
}
