//! Reads the texts to be inserted, each with the names in its tag list.

ghost use Rattle.std.specs.Prelude.{◌≡◌, ◌≢◌, ◌+◌, ◌≤◌, length, Ok, Err, chars, option_map, IfOk, IfErr};
ghost use Rattle.tcl_words.specs.Unread.{texts_of};
ghost use Rattle.command_effects.specs.declared.answers.Fault.TheVariants.{Memory};
ghost use Rattle.command_effects.specs.Lists.{names_at, pair_at, pairs_at};

use crate::answers::Fault;
use std::alloc::Global;
use std::marker::Model;
use tcl_words::{ListFault, split_list};
use text_model::Text;

/// A text to be put in, and the names of its tag list if it has one.
#[derive(Drop)]
pub struct Pair {
    pub text: Text,
    pub names: Option<Vec<String>>,
}

impl Model for Pair {
    ghost use Rattle.std.specs.Option.{option_map};
    ghost use Rattle.tcl_words.specs.Unread.{texts_of};
    ghost use Rattle.command_effects.specs.Lists.{Pair as PairOfWords};

    ghost Value = { PairOfWords };

    ghost view = { λ p. record { text = p.text; names = option_map (λ names. texts_of names.items) p.names } };
}

/// The elements of the list that stands at a position of a command.
fn names_at(alloc: Global, position: usize, word: &str) -> Result<Vec<String>, Fault>
    ensures ok { IfOk result (λ names. names_at position (chars word.now) ≡ Ok (texts_of names.items)) }
    ensures err { IfErr result (λ fault. fault ≢ Memory → names_at position (chars word.now) ≡ Err fault) }
{
    match split_list(alloc, word) {
        Ok(names) => Ok(names),
        Err(ListFault::BadList) => Err(Fault::BadList(position)),
        Err(ListFault::Memory) => Err(Fault::Memory),
    }
}

/// The text at a position, with the list behind it if there is one.
fn pair_at(alloc: Global, position: usize, text: &str, list: Option<&str>) -> Result<Pair, Fault>
    requires { position + 1 ≤ usize.MAX }
    ensures ok { IfOk result (λ pair. pair_at position (chars text.now) (option_map (λ word. chars word.now) list.entry)
        ≡ Ok pair) }
    ensures err { IfErr result (λ fault. fault ≢ Memory →
        pair_at position (chars text.now) (option_map (λ word. chars word.now) list.entry) ≡ Err fault) }
{
    let text = Text::new(String::from_str(alloc, text)?);
    let names = match list {
        None => None,
        Some(list) => Some(names_at(alloc, position + 1, list)?),
    };
    Ok(Pair { text, names })
}

/// Texts with their tag lists, of which the first text stands at a position. The last list may be left out.
pub fn pairs_at(alloc: Global, position: usize, words: &[String]) -> Result<Vec<Pair>, Fault>
    requires { position + length words.now ≤ usize.MAX }
    ensures ok { IfOk result (λ pairs. pairs_at position (texts_of words.now) ≡ Ok pairs.items) }
    ensures err { IfErr result (λ fault. fault ≢ Memory → pairs_at position (texts_of words.now) ≡ Err fault) }
{
    let mut pairs = Vec::with_capacity(alloc, words.len() / 2 + 1)?;
    let mut here = position;
    let mut rest = words;
    while rest.len() >= 2 {
        let pair = pair_at(alloc, here, rest[0].as_str(), Some(rest[1].as_str()))?;
        pairs.push(pair)?;
        rest = &rest[2..];
        here += 2;
    }
    if rest.is_empty() {
        return Ok(pairs);
    }
    pairs.push(pair_at(alloc, here, rest[0].as_str(), None)?)?;
    Ok(pairs)
}
