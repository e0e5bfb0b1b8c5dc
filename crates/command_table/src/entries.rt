//! The table of commands: what may follow each subcommand, how an entry is found, and how it reads its words.

ghost use Rattle.std.specs.Prelude.{◌≡◌, ◌≤◌, ◌+◌, List, ◌∷◌, chars, length, take, map, true, option_map, IfSome, IfOk};
ghost use Rattle.command_table.specs.Words.{texts_of, literal, Word};
ghost use Rattle.command_table.specs.Entries.{switch_words, bad_switch, bad_option, fits, before_options};
ghost use Rattle.command_table.specs.Reading.{decided, decided_by_count, behind, go_on};
ghost use Rattle.command_table.specs.Table.{destroy_entry, table, text_entry, find_in, IsPlaceOf};
ghost use Rattle.command_table.specs.Spelled.{spelled, entry_rule};

use crate::commands::Command;
use crate::options::Options;
use crate::shapes::{Shape, ShapeFault};
use crate::spellings::Spelling;
use crate::switches::Switches;

/// An entry of the table: a command, and what may stand behind the words of its subcommand.
#[derive(Clone, Copy)]
pub struct Entry {
    pub spelling: Spelling,
    pub command: Command,
    pub switches: Option<Switches>,
    pub options: Option<Options>,
    /// The least number of words behind the switches.
    pub least: usize,
    /// The greatest, or any number.
    pub greatest: Option<usize>,
}

/// `text W ?option value ..?`.
static TEXT: Entry = Entry {
    spelling: Spelling::First,
    command: Command::Text,
    switches: None,
    options: Some(Options {
        after: 1,
        valued: true,
    }),
    least: 1,
    greatest: None,
};

// A subcommand of arguments alone: so many words at least, and at most.
macro_rules! plain {
    ($spelling:expr, $command:ident, $least:literal, $greatest:expr) => {
        Entry {
            spelling: $spelling,
            command: Command::$command,
            switches: None,
            options: None,
            least: $least,
            greatest: $greatest,
        }
    };
}

/// `destroy ?W ..?`.
static DESTROY: Entry = plain!(Spelling::First, Destroy, 0, None);

/// The subcommands of a widget.
static ENTRIES: [Entry; 33] = [
    plain!(Spelling::Alone("insert"), Insert, 2, None),
    plain!(Spelling::Alone("delete"), Delete, 1, None),
    plain!(Spelling::Alone("replace"), Replace, 3, None),
    plain!(Spelling::Alone("get"), Get, 1, None),
    plain!(Spelling::Alone("index"), Index, 1, Some(1)),
    plain!(Spelling::Alone("compare"), Compare, 3, Some(3)),
    plain!(Spelling::Member("mark", "gravity"), MarkGravity, 1, Some(2)),
    plain!(Spelling::Member("mark", "names"), MarkNames, 0, Some(0)),
    plain!(Spelling::Member("mark", "next"), MarkNext, 1, Some(1)),
    plain!(
        Spelling::Member("mark", "previous"),
        MarkPrevious,
        1,
        Some(1)
    ),
    plain!(Spelling::Member("mark", "set"), MarkSet, 2, Some(2)),
    plain!(Spelling::Member("mark", "unset"), MarkUnset, 0, None),
    plain!(Spelling::Member("tag", "add"), TagAdd, 2, None),
    plain!(Spelling::Member("tag", "remove"), TagRemove, 2, None),
    plain!(Spelling::Member("tag", "delete"), TagDelete, 1, None),
    plain!(Spelling::Member("tag", "names"), TagNames, 0, Some(1)),
    plain!(Spelling::Member("tag", "ranges"), TagRanges, 1, Some(1)),
    plain!(
        Spelling::Member("tag", "nextrange"),
        TagNextRange,
        2,
        Some(3)
    ),
    plain!(
        Spelling::Member("tag", "prevrange"),
        TagPreviousRange,
        2,
        Some(3)
    ),
    plain!(Spelling::Member("tag", "raise"), TagRaise, 1, Some(2)),
    plain!(Spelling::Member("tag", "lower"), TagLower, 1, Some(2)),
    plain!(
        Spelling::Member("edit", "modified"),
        EditModified,
        0,
        Some(1)
    ),
    plain!(Spelling::Member("edit", "undo"), EditUndo, 0, Some(0)),
    plain!(Spelling::Member("edit", "redo"), EditRedo, 0, Some(0)),
    plain!(Spelling::Member("edit", "reset"), EditReset, 0, Some(0)),
    plain!(
        Spelling::Member("edit", "separator"),
        EditSeparator,
        0,
        Some(0)
    ),
    Entry {
        spelling: Spelling::Alone("configure"),
        command: Command::Configure,
        switches: None,
        options: Some(Options {
            after: 0,
            valued: true,
        }),
        least: 2,
        greatest: None,
    },
    Entry {
        spelling: Spelling::Alone("cget"),
        command: Command::Cget,
        switches: None,
        options: Some(Options {
            after: 0,
            valued: false,
        }),
        least: 1,
        greatest: Some(1),
    },
    Entry {
        spelling: Spelling::Alone("search"),
        command: Command::Search,
        switches: Some(Switches {
            names: &[
                "-all",
                "-backwards",
                "-exact",
                "-forwards",
                "-nocase",
                "-overlap",
                "-strictlimits",
                "--",
            ],
            abbreviated: true,
        }),
        options: None,
        least: 2,
        greatest: Some(3),
    },
    Entry {
        spelling: Spelling::Alone("count"),
        command: Command::Count,
        switches: Some(Switches {
            names: &["-chars", "-indices", "-lines"],
            abbreviated: false,
        }),
        options: None,
        least: 2,
        greatest: Some(2),
    },
    Entry {
        spelling: Spelling::Alone("dump"),
        command: Command::Dump,
        switches: Some(Switches {
            names: &["-all", "-mark", "-tag", "-text"],
            abbreviated: true,
        }),
        options: None,
        least: 1,
        greatest: Some(2),
    },
    Entry {
        spelling: Spelling::Member("peer", "create"),
        command: Command::PeerCreate,
        switches: None,
        options: Some(Options {
            after: 1,
            valued: true,
        }),
        least: 1,
        greatest: None,
    },
    plain!(Spelling::Member("peer", "names"), PeerNames, 0, Some(0)),
];

impl Entry {
    /// How many words stand in place of switches.
    fn count_switches(&self, words: &[String]) -> usize
        ensures value { result ≡ length (switch_words (entry_rule self.now).switches (texts_of words.now)) }
        ensures bound { result ≤ length words.now }
        ensures front { take result (texts_of words.now)
            ≡ switch_words (entry_rule self.now).switches (texts_of words.now) }
    {
        match self.switches {
            None => 0,
            Some(switches) => switches.count(words),
        }
    }

    /// The position of the first word that is no switch. The words stand from a position on.
    fn first_bad_switch(&self, position: usize, words: &[String]) -> Option<usize>
        requires { position + length words.now ≤ usize.MAX }
        ensures { result ≡ bad_switch (entry_rule self.now).switches position (texts_of words.now) }
    {
        match self.switches {
            None => None,
            Some(switches) => switches.first_bad(position, words),
        }
    }

    /// The position of the first word that stands in place of an option and is none. The arguments stand from a
    /// position on.
    fn first_bad_option(&self, position: usize, arguments: &[String]) -> Option<usize>
        requires { position + length arguments.now ≤ usize.MAX }
        ensures { result ≡ bad_option (entry_rule self.now).options position (texts_of arguments.now) }
    {
        match self.options {
            None => None,
            Some(options) => options.first_bad(position, arguments),
        }
    }

    /// Whether so many words may stand behind the switches.
    fn fits(&self, count: usize) -> bool
        ensures value { result ≡ fits (entry_rule self.now) count }
        ensures enough { result ≡ true → before_options (entry_rule self.now).options count ≤ count }
    {
        let is_few = match self.greatest {
            None => true,
            Some(greatest) => count <= greatest,
        };
        let is_paired = match self.options {
            None => true,
            Some(options) => options.are_paired(count),
        };
        self.least <= count && is_few && is_paired
    }

    /// How many of so many words behind the switches stand before the options.
    fn before_options(&self, count: usize) -> usize
        ensures { result ≡ before_options (entry_rule self.now).options count }
    {
        match self.options {
            None => count,
            Some(options) => options.after,
        }
    }

    /// The shape of a command without a bad switch or option, by its number of arguments. Its switches begin at the
    /// position `switches`, and its arguments at `arguments`.
    fn decide_count(
        &self,
        switches: usize,
        arguments: usize,
        count: usize,
    ) -> Result<Shape, ShapeFault>
        ensures value { result ≡ decided_by_count (entry_rule self.now) switches arguments count }
        ensures within { IfOk result (λ shape. shape.arguments + shape.count ≤ arguments + count) }
        ensures ordered { switches ≤ arguments → IfOk result (λ shape. shape.switches ≤ shape.arguments) }
    {
        if !self.fits(count) {
            return Err(ShapeFault::WrongArguments);
        }
        Ok(Shape {
            command: self.command,
            switches,
            arguments,
            count: self.before_options(count),
        })
    }

    /// What switches and arguments are that stand behind the subcommand from a position on.
    fn decide(
        &self,
        position: usize,
        switches: &[String],
        arguments: &[String],
    ) -> Result<Shape, ShapeFault>
        requires { position + length switches.now + length arguments.now ≤ usize.MAX }
        ensures value { result
            ≡ decided (entry_rule self.now) position (texts_of switches.now) (texts_of arguments.now) }
        ensures within { IfOk result (λ shape. shape.arguments + shape.count
            ≤ position + length switches.now + length arguments.now) }
        ensures ordered { IfOk result (λ shape. shape.switches ≤ shape.arguments) }
    {
        let from = position + switches.len();
        if let Some(bad) = self.first_bad_switch(position, switches) {
            return Err(ShapeFault::BadOption(bad));
        }
        if let Some(bad) = self.first_bad_option(from, arguments) {
            return Err(ShapeFault::BadOption(bad));
        }
        self.decide_count(position, from, arguments.len())
    }

    /// What the words after the subcommand are. They begin at a position. Where neither switches nor options are taken,
    /// only the number of words counts.
    pub fn read(&self, position: usize, words: &[String]) -> Result<Shape, ShapeFault>
        requires { position + length words.now ≤ usize.MAX }
        ensures value { result ≡ behind (entry_rule self.now) position (texts_of words.now) }
        ensures within { IfOk result (λ shape. shape.arguments + shape.count ≤ position + length words.now) }
        ensures ordered { IfOk result (λ shape. shape.switches ≤ shape.arguments) }
    {
        match (self.switches, self.options) {
            (None, None) => self.decide_count(position, position, words.len()),
            _ => {
                let count = self.count_switches(words);
                self.decide(position, &words[..count], &words[count..])
            }
        }
    }
}

/// The subcommands of a widget, which are those of the definition.
fn entries() -> &'static [Entry]
    ensures { map entry_rule result.now ≡ table }
{
    &ENTRIES
}

/// The entry of `text`, which is that of the definition.
pub fn text_entry() -> &'static Entry
    ensures { entry_rule result.now ≡ text_entry }
{
    &TEXT
}

/// The entry of `destroy`, which is that of the definition.
pub fn destroy_entry() -> &'static Entry
    ensures { entry_rule result.now ≡ destroy_entry }
{
    &DESTROY
}

/// The place of the entry of a subcommand of one word. Here and below a word is matched as bytes, which takes a
/// comparison a byte; matched as `&str`, it would take a call for each word that it is compared with.
fn place_alone(word: &[u8]) -> Option<usize>
    ensures { IfSome result (λ place. (rest : List Word) → IsPlaceOf place (chars word.now ∷ rest)) }
{
    match word {
        b"insert" => Some(0),
        b"delete" => Some(1),
        b"replace" => Some(2),
        b"get" => Some(3),
        b"index" => Some(4),
        b"compare" => Some(5),
        b"configure" => Some(26),
        b"cget" => Some(27),
        b"search" => Some(28),
        b"count" => Some(29),
        b"dump" => Some(30),
        _ => None,
    }
}

/// The place of the entry of `mark` with a word behind it.
fn place_in_mark(word: &[u8]) -> Option<usize>
    ensures { IfSome result (λ place. (rest : List Word) → IsPlaceOf place (literal "mark" ∷ chars word.now ∷ rest)) }
{
    match word {
        b"gravity" => Some(6),
        b"names" => Some(7),
        b"next" => Some(8),
        b"previous" => Some(9),
        b"set" => Some(10),
        b"unset" => Some(11),
        _ => None,
    }
}

/// The place of the entry of `tag` with a word behind it.
fn place_in_tag(word: &[u8]) -> Option<usize>
    ensures { IfSome result (λ place. (rest : List Word) → IsPlaceOf place (literal "tag" ∷ chars word.now ∷ rest)) }
{
    match word {
        b"add" => Some(12),
        b"remove" => Some(13),
        b"delete" => Some(14),
        b"names" => Some(15),
        b"ranges" => Some(16),
        b"nextrange" => Some(17),
        b"prevrange" => Some(18),
        b"raise" => Some(19),
        b"lower" => Some(20),
        _ => None,
    }
}

/// The place of the entry of `edit` with a word behind it.
fn place_in_edit(word: &[u8]) -> Option<usize>
    ensures { IfSome result (λ place. (rest : List Word) → IsPlaceOf place (literal "edit" ∷ chars word.now ∷ rest)) }
{
    match word {
        b"modified" => Some(21),
        b"undo" => Some(22),
        b"redo" => Some(23),
        b"reset" => Some(24),
        b"separator" => Some(25),
        _ => None,
    }
}

/// The place of the entry of `peer` with a word behind it.
fn place_in_peer(word: &[u8]) -> Option<usize>
    ensures { IfSome result (λ place. (rest : List Word) → IsPlaceOf place (literal "peer" ∷ chars word.now ∷ rest)) }
{
    match word {
        b"create" => Some(31),
        b"names" => Some(32),
        _ => None,
    }
}

/// The place of the entry of a family's member, or else of a subcommand that is the first word alone.
fn place_of_pair(first: &[u8], second: &[u8]) -> Option<usize>
    ensures { IfSome result (λ place.
        (rest : List Word) → IsPlaceOf place (chars first.now ∷ chars second.now ∷ rest)) }
{
    match first {
        b"mark" => place_in_mark(second),
        b"tag" => place_in_tag(second),
        b"edit" => place_in_edit(second),
        b"peer" => place_in_peer(second),
        _ => place_alone(first),
    }
}

/// The place of the first entry whose subcommand begins the words.
fn place_of(words: &[String]) -> Option<usize>
    ensures { IfSome result (λ place. IsPlaceOf place (texts_of words.now)) }
{
    match words {
        [] => None,
        [word] => place_alone(word.as_bytes()),
        [first, second, ..] => place_of_pair(first.as_bytes(), second.as_bytes()),
    }
}

/// The first entry whose subcommand begins the words.
pub fn find_entry(words: &[String]) -> Option<&'static Entry>
    ensures first { option_map (λ entry. entry_rule entry.now) result ≡ find_in table (texts_of words.now) }
    ensures short { IfSome result (λ entry. length (spelled entry.now.spelling) ≤ length words.now) }
{
    if let Some(place) = place_of(words) {
        return Some(&entries()[place]);
    }
    // that there is none is left to the entries themselves
    for entry in entries() {
        if entry.spelling.begins(words) {
            return Some(entry);
        }
    }
    None
}

/// Whether some subcommand begins with the words.
pub fn goes_on(words: &[String]) -> bool
    ensures { result ≡ go_on (texts_of words.now) }
{
    for entry in entries() {
        if entry.spelling.goes_on(words) {
            return true;
        }
    }
    false
}
