//! What a backslash and the characters behind it give, one character after the other.

ghost use Rattle.std.specs.Prelude.{◌≡◌, ◌<◌, ◌≤◌};
ghost use Rattle.tcl_words.specs.EscapeSteps.{is_gap, base_of, limit_of, joined, given, before, digit_step};
ghost use Rattle.tcl_words.specs.EscapeSteps.{letter_step, backslash_step, pair_gives, gap_step, escape_step};
ghost use Rattle.tcl_words.specs.EscapeSteps.{last_given};

/// What an escape's digits are digits of.
#[derive(Clone, Copy)]
pub enum Radix {
    Octal,
    Hexadecimal,
}

/// How far an escape was read.
#[derive(Clone, Copy)]
pub enum EscapeStage {
    /// The backslash was.
    Backslash,
    /// The letter was, behind which two digits may follow and then so many more.
    Letter(char, u8),
    /// Digits of this value were, behind which one may follow and then so many more.
    Digits(Radix, u32, u8),
    /// A newline was, and perhaps spaces and tabs.
    Gap,
}

/// What the next character does to an escape.
pub enum EscapeStep {
    /// It belongs to the escape, which isn't whole yet.
    Goes(EscapeStage),
    /// It ends the escape, which gives this.
    Gives(char),
    /// It ends the escape, which gives the character itself.
    Keeps,
    /// The escape ended before it, and gives this.
    Before(char),
    /// The escape gives no character.
    NoCharacter,
}

impl Radix {
    fn base(self) -> u32
        ensures value { result ≡ base_of self }
        ensures low { 2 ≤ result }
        ensures high { result ≤ 36 }
    {
        match self {
            Radix::Octal => 8,
            Radix::Hexadecimal => 16,
        }
    }

    // The greatest value that an escape may have.
    fn limit(self) -> u32
        ensures value { result ≡ limit_of self }
        ensures fits { result < 4_294_967_296 }
    {
        match self {
            Radix::Octal => 0o377,
            Radix::Hexadecimal => 0x10_FFFF,
        }
    }

    // The value with one more digit, if the character is a digit that may join it.
    fn joined(self, value: u32, c: char) -> Option<u32>
        ensures { result ≡ joined self value c }
    {
        let digit = c.to_digit(self.base())?;
        let scaled = value.checked_mul(self.base())?;
        let more = scaled.checked_add(digit)?;
        if more <= self.limit() {
            Some(more)
        } else {
            None
        }
    }
}

// The character that digits of this value give, with the last of them.
fn given(value: u32) -> EscapeStep
    ensures { result ≡ given value }
{
    match char::from_u32(value) {
        Some(c) => EscapeStep::Gives(c),
        None => EscapeStep::NoCharacter,
    }
}

// The same, where no digit follows.
fn before(value: u32) -> EscapeStep
    ensures { result ≡ before value }
{
    match char::from_u32(value) {
        Some(c) => EscapeStep::Before(c),
        None => EscapeStep::NoCharacter,
    }
}

fn step_digits(radix: Radix, value: u32, more: u8, c: char) -> EscapeStep
    ensures { result ≡ digit_step radix value more c }
{
    match radix.joined(value, c) {
        None => before(value),
        Some(value) => if more == 0 {
            given(value)
        } else {
            EscapeStep::Goes(EscapeStage::Digits(radix, value, more - 1))
        },
    }
}

fn step_letter(letter: char, more: u8, c: char) -> EscapeStep
    ensures { result ≡ letter_step letter more c }
{
    match c.to_digit(16) {
        None => EscapeStep::Before(letter),
        Some(value) => EscapeStep::Goes(EscapeStage::Digits(Radix::Hexadecimal, value, more)),
    }
}

// What the character behind the backslash does.
fn step_backslash(c: char) -> EscapeStep
    ensures { result ≡ backslash_step c }
{
    match c {
        '0'..='7' => EscapeStep::Goes(EscapeStage::Digits(Radix::Octal, c as u32 - 48, 1)),
        'x' => EscapeStep::Goes(EscapeStage::Letter(c, 0)),
        'u' => EscapeStep::Goes(EscapeStage::Letter(c, 2)),
        'U' => EscapeStep::Goes(EscapeStage::Letter(c, 6)),
        '\n' => EscapeStep::Goes(EscapeStage::Gap),
        'a' => EscapeStep::Gives('\x07'),
        'b' => EscapeStep::Gives('\x08'),
        'f' => EscapeStep::Gives('\x0c'),
        'n' => EscapeStep::Gives('\n'),
        'r' => EscapeStep::Gives('\r'),
        't' => EscapeStep::Gives('\t'),
        'v' => EscapeStep::Gives('\x0b'),
        _ => EscapeStep::Keeps,
    }
}

/// What a backslash and this character give, if they are all of an escape.
pub fn pair_gives(c: char) -> Option<char>
    ensures { result ≡ pair_gives c }
{
    match step_backslash(c) {
        EscapeStep::Gives(given) => Some(given),
        EscapeStep::Keeps => Some(c),
        EscapeStep::Goes(_) | EscapeStep::Before(_) | EscapeStep::NoCharacter => None,
    }
}

/// Whether the character is taken along with a newline behind a backslash.
pub fn is_gap(c: char) -> bool
    ensures { result ≡ is_gap c }
{
    c == ' ' || c == '\t'
}

fn step_gap(c: char) -> EscapeStep
    ensures { result ≡ gap_step c }
{
    if is_gap(c) {
        EscapeStep::Goes(EscapeStage::Gap)
    } else {
        EscapeStep::Before(' ')
    }
}

impl EscapeStage {
    /// What the next character does.
    pub fn step(self, c: char) -> EscapeStep
        ensures { result ≡ escape_step self c }
    {
        match self {
            EscapeStage::Backslash => step_backslash(c),
            EscapeStage::Letter(letter, more) => step_letter(letter, more, c),
            EscapeStage::Digits(radix, value, more) => step_digits(radix, value, more, c),
            EscapeStage::Gap => step_gap(c),
        }
    }

    /// The character that the escape gives where the text ends, if it gives one.
    pub fn last(self) -> Option<char>
        ensures { result ≡ last_given self }
    {
        match self {
            EscapeStage::Backslash => Some('\\'),
            EscapeStage::Letter(letter, _) => Some(letter),
            EscapeStage::Digits(_, value, _) => char::from_u32(value),
            EscapeStage::Gap => Some(' '),
        }
    }
}
