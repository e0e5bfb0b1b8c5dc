//! A command of a widget, as its caller gave it, and its arguments by their number; a wrong number is a fault.

ghost use Rattle.std.specs.Prelude.{◌≡◌, ◌+◌, ◌<◌, ◌≤◌, ◌^◌, IfErr, IfOk, Ok, Err, chars, length, option_map};
ghost use Rattle.peers.specs.Arguments.{none_or_one_of, one_of, one_or_more_of, one_or_two_of, three_of, two_of};
ghost use Rattle.peers.specs.Arguments.{two_or_more_of, two_or_three_of};
ghost use Rattle.tcl_words.specs.Unread.{texts_of};

use command_effects::Fault;
use command_table::Shape;
use documents::Caller;

/// A command of a widget, as its caller gave it: who calls it, its switches, and its arguments, followed by its
/// options. `position` is the index of the first argument among the words.
#[derive(Drop)]
pub struct Request<'a> {
    pub caller: Caller<'a>,
    pub switches: &'a [String],
    pub position: usize,
    pub arguments: &'a [String],
    ghost near: { position + length arguments.now + 2 < 2 ^ 64 },
}

impl<'a> Request<'a> {
    ghost use Rattle.peers.specs.Commands.{arguments_of, switches_of};
    ghost use Rattle.peers.specs.Requests.{words_of};

    /// Returns the request that words of this shape make.
    pub fn of(caller: Caller<'a>, shape: Shape, words: &'a [String]) -> Request<'a>
        requires within { shape.arguments + shape.count ≤ length words.now }
        requires ordered { shape.switches ≤ shape.arguments }
        ensures caller { result.caller ≡ caller.entry }
        ensures switches { texts_of result.switches.now ≡ switches_of shape (texts_of words.now) }
        ensures position { result.position ≡ shape.arguments }
        ensures arguments { words_of result ≡ arguments_of shape (texts_of words.now) }
    {
        Request {
            caller,
            switches: &words[shape.switches..shape.arguments],
            position: shape.arguments,
            arguments: &words[shape.arguments..],
        }
    }

    /// Returns the argument of a command that takes one.
    pub fn one(&self) -> Result<&'a str, Fault>
        ensures ok { IfOk result (λ word. one_of (words_of self.now) ≡ Ok (chars word.now)) }
        ensures err { IfErr result (λ fault. one_of (words_of self.now) ≡ Err fault) }
    {
        match self.arguments {
            [word] => Ok(word.as_str()),
            _ => Err(Fault::WrongArguments),
        }
    }

    /// Returns the arguments of a command that takes two.
    pub fn two(&self) -> Result<(&'a str, &'a str), Fault>
        ensures ok { IfOk result (λ words. two_of (words_of self.now) ≡ Ok (chars words.0.now, chars words.1.now)) }
        ensures err { IfErr result (λ fault. two_of (words_of self.now) ≡ Err fault) }
    {
        match self.arguments {
            [first, second] => Ok((first.as_str(), second.as_str())),
            _ => Err(Fault::WrongArguments),
        }
    }

    /// Returns the arguments of a command that takes three.
    pub fn three(&self) -> Result<(&'a str, &'a str, &'a str), Fault>
        ensures ok { IfOk result (λ words.
            three_of (words_of self.now) ≡ Ok (chars words.0.now, chars words.1.now, chars words.2.now)) }
        ensures err { IfErr result (λ fault. three_of (words_of self.now) ≡ Err fault) }
    {
        match self.arguments {
            [first, second, third] => Ok((first.as_str(), second.as_str(), third.as_str())),
            _ => Err(Fault::WrongArguments),
        }
    }

    /// Returns the argument of a command that takes none or one.
    pub fn none_or_one(&self) -> Result<Option<&'a str>, Fault>
        ensures ok { IfOk result (λ word.
            none_or_one_of (words_of self.now) ≡ Ok (option_map (λ word. chars word.now) word)) }
        ensures err { IfErr result (λ fault. none_or_one_of (words_of self.now) ≡ Err fault) }
    {
        match self.arguments {
            [] => Ok(None),
            [word] => Ok(Some(word.as_str())),
            _ => Err(Fault::WrongArguments),
        }
    }

    /// Returns the arguments of a command that takes one or two.
    pub fn one_or_two(&self) -> Result<(&'a str, Option<&'a str>), Fault>
        ensures ok { IfOk result (λ words.
            one_or_two_of (words_of self.now) ≡ Ok (chars words.0.now, option_map (λ word. chars word.now) words.1)) }
        ensures err { IfErr result (λ fault. one_or_two_of (words_of self.now) ≡ Err fault) }
    {
        match self.arguments {
            [first] => Ok((first.as_str(), None)),
            [first, second] => Ok((first.as_str(), Some(second.as_str()))),
            _ => Err(Fault::WrongArguments),
        }
    }

    /// Returns the arguments of a command that takes two or three.
    pub fn two_or_three(&self) -> Result<(&'a str, &'a str, Option<&'a str>), Fault>
        ensures ok { IfOk result (λ words. two_or_three_of (words_of self.now)
            ≡ Ok (chars words.0.now, chars words.1.now, option_map (λ word. chars word.now) words.2)) }
        ensures err { IfErr result (λ fault. two_or_three_of (words_of self.now) ≡ Err fault) }
    {
        match self.arguments {
            [first, second] => Ok((first.as_str(), second.as_str(), None)),
            [first, second, third] => {
                Ok((first.as_str(), second.as_str(), Some(third.as_str())))
            }
            _ => Err(Fault::WrongArguments),
        }
    }

    /// Returns the first argument of a command that takes one or more, and those after it.
    pub fn one_or_more(&self) -> Result<(&'a str, &'a [String]), Fault>
        ensures ok { IfOk result (λ parts. one_or_more_of (words_of self.now)
            ≡ Ok (chars parts.0.now, texts_of parts.1.now)) }
        ensures err { IfErr result (λ fault. one_or_more_of (words_of self.now) ≡ Err fault) }
        ensures after { IfOk result (λ parts. length parts.1.now + 1 ≡ length self.now.arguments.now) }
    {
        match self.arguments {
            [first, rest @ ..] => Ok((first.as_str(), rest)),
            [] => Err(Fault::WrongArguments),
        }
    }

    /// Returns the first two arguments of a command that takes two or more, and those after them.
    pub fn two_or_more(&self) -> Result<(&'a str, &'a str, &'a [String]), Fault>
        ensures ok { IfOk result (λ parts. two_or_more_of (words_of self.now)
            ≡ Ok (chars parts.0.now, chars parts.1.now, texts_of parts.2.now)) }
        ensures err { IfErr result (λ fault. two_or_more_of (words_of self.now) ≡ Err fault) }
        ensures after { IfOk result (λ parts. length parts.2.now + 2 ≡ length self.now.arguments.now) }
    {
        match self.arguments {
            [first, second, rest @ ..] => Ok((first.as_str(), second.as_str(), rest)),
            _ => Err(Fault::WrongArguments),
        }
    }
}
