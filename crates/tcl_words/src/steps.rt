//! What each character of a command does.

ghost use Rattle.std.specs.Prelude.{◌≡◌, ◌<◌, ◌+◌, ◌≤◌};
ghost use Rattle.tcl_words.specs.Characters.{is_end, is_blank, begins_name};
ghost use Rattle.tcl_words.specs.Steps.{fault_behind, text_step, bare_step, quoted_step, word_step, command_step};
ghost use Rattle.tcl_words.specs.Steps.{comment_step, braced_step, kept_step, behind_step, inside_step, dollar_step};
ghost use Rattle.tcl_words.specs.Steps.{colon_step, step_by, joint_step, opening_step, star_step, gap_in_braces};
ghost use Rattle.tcl_words.specs.Steps.{behind_joint, step_of, last_in_text, last_by, last_step, depth_of};

use crate::escapes::{EscapeStage, EscapeStep, is_gap};
use crate::fault::ScriptFault;
use crate::stage::{Closing, Next, Stage, Step, TextWord};

/// Whether the character ends a command.
pub fn is_end(c: char) -> bool
    ensures { result ≡ is_end c }
{
    c == '\n' || c == ';'
}

/// Whether the character separates words.
pub fn is_blank(c: char) -> bool
    ensures { result ≡ is_blank c }
{
    c == ' ' || c == '\t' || c == '\r' || c == '\x0b' || c == '\x0c'
}

// Whether the character behind a dollar sign makes a variable of it by itself, as two colons do together.
fn begins_name(c: char) -> bool
    ensures { result ≡ begins_name c }
{
    c.is_ascii_alphanumeric() || c == '_' || c == '{' || c == '('
}

// What anything else than the end of a word is behind what closed it.
fn fault_behind(closing: Closing) -> ScriptFault
    ensures { result ≡ fault_behind closing }
{
    match closing {
        Closing::Brace => ScriptFault::ExtraAfterBrace,
        Closing::Quote => ScriptFault::ExtraAfterQuote,
        Closing::Expansion => ScriptFault::Substitution,
    }
}

fn step_text(word: TextWord, c: char) -> Step
    ensures { result ≡ text_step word c }
{
    if c == '[' {
        Step::refuse(ScriptFault::Substitution)
    } else if c == '$' {
        Step::keep(Stage::AfterDollar(word))
    } else if c == '\\' {
        Step::pass(Stage::Escaped(word, EscapeStage::Backslash))
    } else {
        Step::keep(Stage::Text(word))
    }
}

fn step_bare(c: char) -> Step
    ensures { result ≡ bare_step c }
{
    if is_end(c) {
        Step::close(Next::End)
    } else if is_blank(c) {
        Step::close(Next::Go(Stage::BeforeWord))
    } else if c == '\\' {
        Step::pass(Stage::BareBackslash)
    } else {
        step_text(TextWord::Bare, c)
    }
}

fn step_quoted(c: char) -> Step
    ensures { result ≡ quoted_step c }
{
    if c == '"' {
        Step::close(Next::Go(Stage::Behind(Closing::Quote)))
    } else {
        step_text(TextWord::Quoted, c)
    }
}

fn step_inside(word: TextWord, c: char) -> Step
    ensures { result ≡ inside_step word c }
{
    match word {
        TextWord::Bare => step_bare(c),
        TextWord::Quoted => step_quoted(c),
    }
}

fn step_word(c: char) -> Step
    ensures { result ≡ word_step c }
{
    if is_end(c) {
        Step::end()
    } else if is_blank(c) {
        Step::pass(Stage::BeforeWord)
    } else if c == '\\' {
        Step::pass(Stage::WordBackslash)
    } else if c == '{' {
        Step::pass(Stage::AfterOpening)
    } else if c == '"' {
        Step::pass(Stage::Text(TextWord::Quoted))
    } else {
        step_text(TextWord::Bare, c)
    }
}

fn step_command(c: char) -> Step
    ensures { result ≡ command_step c }
{
    if is_end(c) || is_blank(c) {
        Step::pass(Stage::BeforeCommand)
    } else if c == '\\' {
        Step::pass(Stage::CommandBackslash)
    } else if c == '#' {
        Step::pass(Stage::Comment)
    } else {
        step_word(c)
    }
}

fn step_comment(c: char) -> Step
    ensures { result ≡ comment_step c }
{
    if c == '\n' {
        Step::pass(Stage::BeforeCommand)
    } else if c == '\\' {
        Step::pass(Stage::CommentBackslash)
    } else {
        Step::pass(Stage::Comment)
    }
}

fn step_braced(depth: usize, c: char) -> Step
    requires { depth + 1 ≤ usize.MAX }
    ensures { result ≡ braced_step depth c }
{
    if c == '}' {
        if depth == 0 {
            Step::close(Next::Go(Stage::Behind(Closing::Brace)))
        } else {
            Step::keep(Stage::Braced(depth - 1))
        }
    } else if c == '{' {
        Step::keep(Stage::Braced(depth + 1))
    } else if c == '\\' {
        Step::pass(Stage::BracedBackslash(depth))
    } else {
        Step::keep(Stage::Braced(depth))
    }
}

fn step_kept(depth: usize, c: char) -> Step
    ensures { result ≡ kept_step depth c }
{
    if c == '\n' {
        Step::pass(Stage::BracedGap(depth)).after(' ')
    } else {
        Step::keep(Stage::Braced(depth)).after('\\')
    }
}

fn step_gap_in_braces(depth: usize, c: char) -> Step
    requires { depth + 1 ≤ usize.MAX }
    ensures { result ≡ gap_in_braces depth c }
{
    if is_gap(c) {
        Step::pass(Stage::BracedGap(depth))
    } else {
        step_braced(depth, c)
    }
}

fn step_opening(c: char) -> Step
    ensures { result ≡ opening_step c }
{
    if c == '*' {
        Step::keep(Stage::AfterStar)
    } else {
        step_braced(0, c)
    }
}

fn step_star(c: char) -> Step
    ensures { result ≡ star_step c }
{
    if c == '}' {
        Step::close(Next::Go(Stage::Behind(Closing::Expansion)))
    } else {
        step_braced(0, c)
    }
}

fn step_behind(closing: Closing, c: char) -> Step
    ensures { result ≡ behind_step closing c }
{
    if is_end(c) {
        Step::end()
    } else if is_blank(c) {
        Step::pass(Stage::BeforeWord)
    } else if c == '\\' {
        Step::pass(Stage::BehindBackslash(closing))
    } else {
        Step::refuse(fault_behind(closing))
    }
}

fn step_behind_joint(closing: Closing, c: char) -> Step
    ensures { result ≡ behind_joint closing c }
{
    if c == '\n' {
        Step::pass(Stage::BeforeWord)
    } else {
        Step::refuse(fault_behind(closing))
    }
}

fn step_dollar(word: TextWord, c: char) -> Step
    ensures { result ≡ dollar_step word c }
{
    if begins_name(c) {
        Step::refuse(ScriptFault::Substitution)
    } else if c == ':' {
        Step::keep(Stage::AfterColon(word))
    } else {
        step_inside(word, c)
    }
}

fn step_colon(word: TextWord, c: char) -> Step
    ensures { result ≡ colon_step word c }
{
    if c == ':' {
        Step::refuse(ScriptFault::Substitution)
    } else {
        step_inside(word, c)
    }
}

fn step_by(word: TextWord, c: char, step: EscapeStep) -> Step
    ensures { result ≡ step_by word c step }
{
    match step {
        EscapeStep::Goes(stage) => Step::pass(Stage::Escaped(word, stage)),
        EscapeStep::Gives(given) => Step::pass(Stage::Text(word)).after(given),
        EscapeStep::Keeps => Step::keep(Stage::Text(word)),
        EscapeStep::Before(given) => step_inside(word, c).after(given),
        EscapeStep::NoCharacter => Step::refuse(ScriptFault::BadCharacterCode),
    }
}

// Behind a backslash that a newline would make a blank.
fn step_joint(blank: Step, c: char) -> Step
    ensures { result ≡ joint_step blank c }
{
    if c == '\n' {
        blank
    } else {
        step_by(TextWord::Bare, c, EscapeStage::Backslash.step(c))
    }
}

/// What the next character does.
#[inline(always)]
pub fn step_from(stage: Stage, c: char) -> Step
    requires { depth_of stage + 1 ≤ usize.MAX }
    ensures { result ≡ step_of stage c }
{
    match stage {
        Stage::BeforeCommand => step_command(c),
        Stage::CommandBackslash => step_joint(Step::pass(Stage::BeforeCommand), c),
        Stage::Comment => step_comment(c),
        Stage::CommentBackslash => Step::pass(Stage::Comment),
        Stage::BeforeWord => step_word(c),
        Stage::WordBackslash => step_joint(Step::pass(Stage::BeforeWord), c),
        Stage::BareBackslash => step_joint(Step::close(Next::Go(Stage::BeforeWord)), c),
        Stage::Text(word) => step_inside(word, c),
        Stage::AfterDollar(word) => step_dollar(word, c),
        Stage::AfterColon(word) => step_colon(word, c),
        Stage::Escaped(word, escape) => step_by(word, c, escape.step(c)),
        Stage::AfterOpening => step_opening(c),
        Stage::AfterStar => step_star(c),
        Stage::Braced(depth) => step_braced(depth, c),
        Stage::BracedBackslash(depth) => step_kept(depth, c),
        Stage::BracedGap(depth) => step_gap_in_braces(depth, c),
        Stage::Behind(closing) => step_behind(closing, c),
        Stage::BehindBackslash(closing) => step_behind_joint(closing, c),
    }
}

fn last_in_text(word: TextWord) -> Step
    ensures { result ≡ last_in_text word }
{
    match word {
        TextWord::Bare => Step::close(Next::End),
        TextWord::Quoted => Step::refuse(ScriptFault::MissingQuote),
    }
}

fn last_by(word: TextWord, given: Option<char>) -> Step
    ensures { result ≡ last_by word given }
{
    match given {
        Some(c) => last_in_text(word).after(c),
        None => Step::refuse(ScriptFault::BadCharacterCode),
    }
}

/// What the end of the script does. To go on means that no command has begun.
pub fn last_from(stage: Stage) -> Step
    ensures { result ≡ last_step stage }
{
    match stage {
        Stage::BeforeCommand | Stage::Comment | Stage::CommentBackslash => Step::pass(
            Stage::BeforeCommand,
        ),
        Stage::CommandBackslash | Stage::WordBackslash | Stage::BareBackslash => last_by(
            TextWord::Bare,
            EscapeStage::Backslash.last(),
        ),
        Stage::Text(word) | Stage::AfterDollar(word) | Stage::AfterColon(word) => last_in_text(
            word,
        ),
        Stage::Escaped(word, escape) => last_by(word, escape.last()),
        Stage::AfterOpening
        | Stage::AfterStar
        | Stage::Braced(_)
        | Stage::BracedBackslash(_)
        | Stage::BracedGap(_) => Step::refuse(ScriptFault::MissingBrace),
        Stage::BeforeWord | Stage::Behind(_) => Step::end(),
        Stage::BehindBackslash(closing) => Step::refuse(fault_behind(closing)),
    }
}
