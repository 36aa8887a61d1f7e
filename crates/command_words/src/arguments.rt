//! The words after a command's own: options with their values, and numbers.
ghost use Rattle.std.specs.Prelude.{◌≡◌, ◌↔◌, ◌+◌, ◌<◌, ◌^◌, ◌≤◌, ◌++◌, [], ◌∷◌, ℕ, List, IfSome, IsSomeAnd, Some, None, true, false, length, map, take, string_bytes, option_to_list, codes, decimal, ⊤};
ghost use Rattle.core_state.specs.declared.shape.Waiter as waiter;
ghost use Rattle.command_words.specs.declared.arguments.Argument.{Argument};
ghost use Rattle.command_words.specs.declared.arguments.Arguments as found;
ghost use Rattle.command_words.specs.Arguments.{IsOption, IsSpelled, AreSpelled, waiter_word, numbers_of, Joins};

use core_state::shape::Waiter;
use script_text::read_number;

/// One argument of a command.
#[derive(Clone, Copy)]
pub enum Argument {
    /// The option `--slots` with its number.
    Slots { number: u64 },
    /// The option `--schedule` with its number.
    Schedule { number: u64 },
    /// The option `--waiter` with its waiter.
    Waits { waiter: Waiter },
    /// The flag `--cookies`.
    Cookies,
    /// A number by itself.
    Number { number: u64 },
}

/// Numbers that stand by themselves, in their order. No command takes more than three.
#[derive(Clone, Copy)]
pub enum Numbers {
    Zero,
    One(u64),
    Two(u64, u64),
    Three(u64, u64, u64),
}

impl Numbers {
    // The numbers with another at the end: `None` exactly where there are three already.
    fn with(self, number: u64) -> Option<Numbers>
        ensures some { IfSome result (λ numbers. numbers_of numbers ≡ numbers_of self ++ number ∷ []) }
        ensures none { length (numbers_of self) < 3 → IsSomeAnd result (λ _. ⊤) }
    {
        match self {
            Numbers::Zero => Some(Numbers::One(number)),
            Numbers::One(first) => Some(Numbers::Two(first, number)),
            Numbers::Two(first, second) => Some(Numbers::Three(first, second, number)),
            Numbers::Three(_, _, _) => None,
        }
    }
}

/// What a command's arguments are, in whatever order they stood: each option at most once.
#[derive(Clone, Copy)]
pub struct Arguments {
    pub slots: Option<u64>,
    pub schedule: Option<u64>,
    pub waiter: Option<Waiter>,
    pub cookies: bool,
    pub numbers: Numbers,
}

impl Arguments {
    // Those so far and another: `None` exactly for an option that stood already, and for a fourth number.
    fn with(self, argument: Argument) -> Option<Arguments>
        ensures some { IfSome result (Joins self (argument ∷ [])) }
        ensures none { (others : List Argument) (found : found.Arguments) → Joins self (argument ∷ others) found
            → IsSomeAnd result (λ _. ⊤) }
    {
        match argument {
            Argument::Slots { number } => self.with_slots(number),
            Argument::Schedule { number } => self.with_schedule(number),
            Argument::Waits { waiter } => self.with_waiter(waiter),
            Argument::Cookies => self.with_cookies(),
            Argument::Number { number } => Some(Arguments {
                slots: self.slots,
                schedule: self.schedule,
                waiter: self.waiter,
                cookies: self.cookies,
                numbers: self.numbers.with(number)?,
            }),
        }
    }

    fn with_slots(self, number: u64) -> Option<Arguments>
        ensures some { IfSome result (Joins self (Argument.Slots number ∷ [])) }
        ensures none { self.slots ≡ None → IsSomeAnd result (λ _. ⊤) }
    {
        if self.slots.is_some() {
            return None;
        }
        Some(Arguments {
            slots: Some(number),
            schedule: self.schedule,
            waiter: self.waiter,
            cookies: self.cookies,
            numbers: self.numbers,
        })
    }

    fn with_schedule(self, number: u64) -> Option<Arguments>
        ensures some { IfSome result (Joins self (Argument.Schedule number ∷ [])) }
        ensures none { self.schedule ≡ None → IsSomeAnd result (λ _. ⊤) }
    {
        if self.schedule.is_some() {
            return None;
        }
        Some(Arguments {
            slots: self.slots,
            schedule: Some(number),
            waiter: self.waiter,
            cookies: self.cookies,
            numbers: self.numbers,
        })
    }

    fn with_waiter(self, waiter: Waiter) -> Option<Arguments>
        ensures some { IfSome result (Joins self (Argument.Waits waiter ∷ [])) }
        ensures none { self.waiter ≡ None → IsSomeAnd result (λ _. ⊤) }
    {
        if self.waiter.is_some() {
            return None;
        }
        Some(Arguments {
            slots: self.slots,
            schedule: self.schedule,
            waiter: Some(waiter),
            cookies: self.cookies,
            numbers: self.numbers,
        })
    }

    fn with_cookies(self) -> Option<Arguments>
        ensures some { IfSome result (Joins self (Argument.Cookies ∷ [])) }
        ensures none { self.cookies ≡ false → IsSomeAnd result (λ _. ⊤) }
    {
        if self.cookies {
            return None;
        }
        Some(Arguments {
            slots: self.slots,
            schedule: self.schedule,
            waiter: self.waiter,
            cookies: true,
            numbers: self.numbers,
        })
    }
}

// The value of an option, and of how many words the option takes.
#[derive(Drop)]
struct Valued<'a> {
    value: &'a [u8],
    taken: usize,
}

// The option of this name that the words begin with, as `NAME VALUE` or as `NAME=VALUE`.
fn option_at<'a>(name: &[u8], words: &'a [String]) -> Option<Valued<'a>>
    ensures some { IfSome result (λ option. IsOption name.now option.value.now (take option.taken (map string_bytes words.now))) }
    ensures within { IfSome result (λ option. (1 ≤ option.taken) × (option.taken ≤ length words.now)) }
    ensures only { (value : List ℕ) (first rest : List (List ℕ)) → map string_bytes words.now ≡ first ++ rest
        → IsOption name.now value first
        → IsSomeAnd result (λ option. (option.value.now ≡ value) × (option.taken ≡ length first)) }
{
    let (first, rest) = words.split_first()?;
    let after = first.as_bytes().strip_prefix(name)?;
    match after.split_first() {
        None => {
            let value = rest.first()?.as_bytes();
            Some(Valued { value, taken: 2 })
        }
        Some((b'=', value)) => Some(Valued { value, taken: 1 }),
        Some(_) => None,
    }
}

// The number of an option, and how many words the option takes.
#[derive(Drop)]
struct Counted {
    number: u64,
    taken: usize,
}

// The option of this name that the words begin with, where its value is a number.
fn counted_at(name: &[u8], words: &[String]) -> Option<Counted>
    ensures some { IfSome result (λ option. IsOption name.now (decimal option.number) (take option.taken (map string_bytes words.now))) }
    ensures within { IfSome result (λ option. (1 ≤ option.taken) × (option.taken ≤ length words.now)) }
    ensures only { (number : ℕ) (first rest : List (List ℕ)) → number < 2 ^ 64 → map string_bytes words.now ≡ first ++ rest
        → IsOption name.now (decimal number) first → IsSomeAnd result (λ _. ⊤) }
{
    let option = option_at(name, words)?;
    Some(Counted {
        number: read_number(option.value)?,
        taken: option.taken,
    })
}

// The waiter of this word.
fn waiter_of(word: &[u8]) -> Option<Waiter>
    ensures some { IfSome result (λ waiter. word.now ≡ waiter_word waiter) }
    ensures only { (waiter : waiter.Waiter) → word.now ≡ waiter_word waiter → result ≡ Some waiter }
{
    match word {
        b"eer" => Some(Waiter::Eer),
        b"d" => Some(Waiter::Domain),
        b"deer" => Some(Waiter::Deer),
        _ => None,
    }
}

// An argument, and how many words it takes.
#[derive(Drop)]
struct Next {
    argument: Argument,
    taken: usize,
}

// The option `--waiter` that the words begin with, where its value is a waiter.
fn waiter_at(words: &[String]) -> Option<Next>
    ensures some { IfSome result (λ next. IsSpelled next.argument (take next.taken (map string_bytes words.now))) }
    ensures within { IfSome result (λ next. (1 ≤ next.taken) × (next.taken ≤ length words.now)) }
    ensures only { (waiter : waiter.Waiter) (first rest : List (List ℕ)) → map string_bytes words.now ≡ first ++ rest
        → IsSpelled (Argument.Waits waiter) first → IsSomeAnd result (λ _. ⊤) }
{
    let option = option_at(b"--waiter", words)?;
    Some(Next {
        argument: Argument::Waits {
            waiter: waiter_of(option.value)?,
        },
        taken: option.taken,
    })
}

// Whether the word is the flag `--cookies`.
fn is_cookies(word: &[u8]) -> bool
    ensures { (result ≡ true) ↔ (word.now ≡ codes "--cookies") }
{
    match word {
        b"--cookies" => true,
        _ => false,
    }
}

// The flag `--cookies`, where the words begin with it.
fn cookies_at(words: &[String]) -> Option<Next>
    ensures some { IfSome result (λ next. IsSpelled next.argument (take next.taken (map string_bytes words.now))) }
    ensures within { IfSome result (λ next. (1 ≤ next.taken) × (next.taken ≤ length words.now)) }
    ensures only { (first rest : List (List ℕ)) → map string_bytes words.now ≡ first ++ rest → IsSpelled Argument.Cookies first
        → IsSomeAnd result (λ _. ⊤) }
{
    if !is_cookies(words.first()?.as_bytes()) {
        return None;
    }
    Some(Next {
        argument: Argument::Cookies,
        taken: 1,
    })
}

// The number that the words begin with.
fn number_at(words: &[String]) -> Option<Next>
    ensures some { IfSome result (λ next. IsSpelled next.argument (take next.taken (map string_bytes words.now))) }
    ensures within { IfSome result (λ next. (1 ≤ next.taken) × (next.taken ≤ length words.now)) }
    ensures only { (number : ℕ) (first rest : List (List ℕ)) → map string_bytes words.now ≡ first ++ rest
        → IsSpelled (Argument.Number number) first → IsSomeAnd result (λ _. ⊤) }
{
    Some(Next {
        argument: Argument::Number {
            number: read_number(words.first()?.as_bytes())?,
        },
        taken: 1,
    })
}

// The argument that the words begin with.
fn next_argument(words: &[String]) -> Option<Next>
    ensures some { IfSome result (λ next. IsSpelled next.argument (take next.taken (map string_bytes words.now))) }
    ensures within { IfSome result (λ next. (1 ≤ next.taken) × (next.taken ≤ length words.now)) }
    ensures only { (argument : Argument) (first rest : List (List ℕ)) → map string_bytes words.now ≡ first ++ rest
        → IsSpelled argument first
        → IsSomeAnd result (λ _. ⊤) }
{
    if let Some(option) = counted_at(b"--slots", words) {
        return Some(Next {
            argument: Argument::Slots {
                number: option.number,
            },
            taken: option.taken,
        });
    }
    if let Some(option) = counted_at(b"--schedule", words) {
        return Some(Next {
            argument: Argument::Schedule {
                number: option.number,
            },
            taken: option.taken,
        });
    }
    if let Some(next) = waiter_at(words) {
        return Some(next);
    }
    if let Some(next) = cookies_at(words) {
        return Some(next);
    }
    number_at(words)
}

/// The arguments that the words are, added to those so far: `None` exactly where the words aren't arguments, an option
/// stands twice, or more than three numbers stand.
pub fn read_arguments(words: &[String], so_far: Arguments) -> Option<Arguments>
    ensures some { IfSome result (λ found. (arguments : List Argument) × AreSpelled arguments (map string_bytes words.now)
        × Joins so_far arguments found) }
    ensures only { (arguments : List Argument) (found : found.Arguments) → AreSpelled arguments (map string_bytes words.now)
        → Joins so_far arguments found
        → result ≡ Some found }
{
    if words.is_empty() {
        return Some(so_far);
    }
    let next = next_argument(words)?;
    read_arguments(&words[next.taken..], so_far.with(next.argument)?)
}
