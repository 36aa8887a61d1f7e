//! What is wrong with a bad line, as far as the line alone shows it.
ghost use Rattle.std.specs.Prelude.{◌≡◌, ◌↔◌, ◌-◌, ◌∷◌, ℕ, List, IsTrue, true, drop};
ghost use Rattle.script_text.specs.Grammar.{lines_of};
ghost use Rattle.command_words.specs.LineFaults.{IsFaultOf, IsFaultOfWord, IsFaultOfWords, IsFaultOfOne, IsFaultOfTwo, IsFaultOfNumber, AreDigits, HasMark, line_at};

use script_text::{next_line, read_number, split_at_first};

/// What is wrong with a bad line.
#[derive(Clone, Copy, Debug, PartialEq, Eq)]
pub enum LineFault {
    /// It has a carriage return.
    CarriageReturn,
    /// It has a tab.
    Tab,
    /// It begins with a byte order mark.
    ByteOrderMark,
    /// It has a space that isn't between two words.
    Spacing,
    /// Its first word is none that a line begins with.
    Unknown,
    /// A number is missing.
    TooFew,
    /// It has more words than its first one takes.
    TooMany,
    /// A word where a number should stand isn't written as one.
    NoNumber,
    /// A number is too large.
    TooLarge,
    /// It begins a script, where no more may begin.
    OneScriptTooMany,
    /// It is an operation where none may stand.
    Misplaced,
}

impl LineFault {
    ghost use Rattle.std.specs.Prelude.{◌≡◌};
    ghost use Rattle.command_words.specs.LineFaults.{fault_line};

    /// The line that tells it, with its end.
    pub fn line(self) -> &'static [u8]
        ensures { result.now ≡ fault_line self }
    {
        match self {
            LineFault::CarriageReturn => b"the line has a carriage return\n",
            LineFault::Tab => b"the line has a tab\n",
            LineFault::ByteOrderMark => b"the line begins with a byte order mark\n",
            LineFault::Spacing => b"the line has a space that is not between two words\n",
            LineFault::Unknown =>
                b"the line begins with none of script, put, get, del, set and #\n",
            LineFault::TooFew => b"the line lacks a key or a value\n",
            LineFault::TooMany => b"the line has more words than its first one takes\n",
            LineFault::NoNumber => {
                b"the line has a key or a value that is no number: digits alone, without a zero before them\n"
            }
            LineFault::TooLarge => b"the line has a number above 18446744073709551615\n",
            LineFault::OneScriptTooMany => {
                b"the line begins one script too many: a text has at most 64, and 63 for watch\n"
            }
            LineFault::Misplaced => {
                b"the operation stands before the first line script, or after 1048576 others\n"
            }
        }
    }
}

// Whether the word is digits, of which the first isn't 0.
fn are_digits(word: &[u8]) -> bool
    ensures { IsTrue result ↔ AreDigits word.now }
{
    !starts_with_zero(word) && word.iter().all(|byte| *byte >= b'0' && *byte <= b'9')
}

// Whether the word's first byte is 0.
fn starts_with_zero(word: &[u8]) -> bool
    ensures { IsTrue result ↔ ((rest : List ℕ) × (word.now ≡ 48 ∷ rest)) }
{
    match word.split_first() {
        Some((b'0', _)) => true,
        _ => false,
    }
}

// What is wrong with the word where a number should stand, or with its operation's place.
fn fault_of_number(word: &[u8]) -> LineFault
    ensures { IsFaultOfNumber result word.now }
{
    if word.is_empty() {
        return LineFault::Spacing;
    }
    match read_number(word) {
        Some(_) => LineFault::Misplaced,
        None if are_digits(word) => LineFault::TooLarge,
        None => LineFault::NoNumber,
    }
}

// The same of what follows a word that takes one number.
fn fault_of_one(rest: &[u8]) -> LineFault
    ensures { IsFaultOfOne result rest.now }
{
    match split_at_first(rest, b' ') {
        None => fault_of_number(rest),
        Some((front, _)) if front.is_empty() => LineFault::Spacing,
        Some(_) => LineFault::TooMany,
    }
}

// The same of what follows a word that takes two numbers.
fn fault_of_two(rest: &[u8]) -> LineFault
    ensures { IsFaultOfTwo result rest.now }
{
    let Some((first, second)) = split_at_first(rest, b' ') else {
        return LineFault::TooFew;
    };
    match read_number(first) {
        Some(_) => fault_of_one(second),
        None => fault_of_number(first),
    }
}

// The same of a line of one word.
fn fault_of_word(word: &[u8]) -> LineFault
    ensures { IsFaultOfWord result word.now }
{
    match word {
        b"put" | b"get" | b"del" | b"set" => LineFault::TooFew,
        b"script" => LineFault::OneScriptTooMany,
        _ => LineFault::Unknown,
    }
}

// The same of a line that has a space.
fn fault_of_words(word: &[u8], rest: &[u8]) -> LineFault
    ensures { IsFaultOfWords result word.now rest.now }
{
    match word {
        b"" => LineFault::Spacing,
        b"put" | b"set" => fault_of_two(rest),
        b"get" | b"del" => fault_of_one(rest),
        b"script" => LineFault::TooMany,
        _ => LineFault::Unknown,
    }
}

// Whether the line begins with a byte order mark.
fn has_mark(line: &[u8]) -> bool
    ensures { IsTrue result ↔ HasMark line.now }
{
    match line {
        [239, 187, 191, ..] => true,
        _ => false,
    }
}

/// What is wrong with the line, which is bad in its text.
pub fn fault_of(line: &[u8]) -> LineFault
    ensures { IsFaultOf result line.now }
{
    if line.contains(&b'\r') {
        return LineFault::CarriageReturn;
    }
    if line.contains(&b'\t') {
        return LineFault::Tab;
    }
    if has_mark(line) {
        return LineFault::ByteOrderMark;
    }
    match split_at_first(line, b' ') {
        None => fault_of_word(line),
        Some((word, rest)) => fault_of_words(word, rest),
    }
}

// The text after its first line, if it has one.
fn skip_line(text: &[u8]) -> &[u8]
    ensures { lines_of result.now ≡ drop 1 (lines_of text.now) }
{
    match next_line(text) {
        Some((_, after)) => after,
        None => text,
    }
}

/// The line of the text with this number, counted from 1, and nothing where it has fewer.
pub fn line_of(text: &[u8], number: u32) -> &[u8]
    ensures { result.now ≡ line_at text.now number }
{
    let mut rest = text;
    for _ in 1..number {
        rest = skip_line(rest);
    }
    match next_line(rest) {
        Some((line, _)) => line,
        None => rest,
    }
}
