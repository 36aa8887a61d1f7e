//! The words after the program's name.
ghost use Rattle.std.specs.Prelude.{◌≡◌, ◌↔◌, ℕ, ◌*◌, ◌≤◌, ◌∷◌, [], IsTrue, IfSome, Some, None, Option, map, string_bytes};
ghost use Rattle.core_state.specs.declared.shape.Waiter as waiter;
ghost use Rattle.command_words.specs.declared.commands.Command as command;
ghost use Rattle.command_words.specs.declared.commands.Mode as mode;
ghost use Rattle.command_words.specs.Arguments.{numbers_of};
ghost use Rattle.command_words.specs.Commands.{Asks, AreSlots, IsInRange, IsMode, Suits, chosen};

use crate::arguments::{Arguments, Numbers, read_arguments};
use core_state::shape::Waiter;
use prcu_model::Scripts;

/// How `run` runs scripts.
#[derive(Clone, Copy)]
pub enum Mode {
    /// Each in a thread of its own, on one tree with this waiter, by clients that hold cookies or by clients that hold none.
    Threads { waiter: Waiter, cookies: bool },
    /// In one thread, step by step. The number draws which script makes the next step.
    Schedule { number: u64 },
}

/// What the words ask for.
#[derive(Clone, Copy)]
pub enum Command {
    /// Runs the scripts of the input on one search tree, and writes their account. With a number of slots the tree takes no
    /// more pairs than that, and twenty for each script but the first.
    Run {
        slots: Option<u32>,
        mode: Mode,
    },
    /// Tells whether the bytes after the scripts are an account of them, which may have so many slots.
    Check {
        slots: Option<u32>,
    },
    /// Runs so many scripts of so many operations each, made from the number, on one search tree with this waiter, and writes
    /// a summary.
    Load {
        number: u64,
        scripts: u32,
        ops: u32,
        waiter: Waiter,
    },
    /// Runs the scripts of the input, at most 63, as `Run` does, and makes four lists of the pairs with keys from the low to the high one
    /// beside them. Writes the scripts' account with these lists.
    Watch {
        low: u64,
        high: u64,
        slots: Option<u32>,
        waiter: Waiter,
    },
    /// Runs the scripts of the input beside each other on one hash dictionary, and writes their account.
    Hash,
}

impl Command {
    ghost use Rattle.std.specs.Prelude.{◌≡◌};
    ghost use Rattle.command_words.specs.Commands.{limit_of};

    /// The most bytes that the command reads.
    pub fn limit(self) -> u64
        ensures { result ≡ limit_of self }
    {
        match self {
            Command::Run { .. } | Command::Watch { .. } | Command::Hash => 16_777_216,
            Command::Check { .. } => 134_217_728,
            Command::Load { .. } => 0,
        }
    }
}

// The most slots that `--slots` gives: with twenty more for each script but the first they are at most 2,097,152.
const MOST_SLOTS: u64 = 2_095_892;

/// Reads the words: `None` exactly where they are no command.
pub fn command_of(words: &[String]) -> Option<Command>
    ensures asked { IfSome result (Asks (map string_bytes words.now)) }
    ensures only { (command : command.Command) → Asks (map string_bytes words.now) command → result ≡ Some command }
{
    let (word, others) = words.split_first()?;
    let none = Arguments {
        slots: None,
        schedule: None,
        waiter: None,
        cookies: false,
        numbers: Numbers::Zero,
    };
    let arguments = read_arguments(others, none)?;
    match word.as_str() {
        "run" => run_of(arguments),
        "check" => check_of(arguments),
        "load" => load_of(arguments),
        "watch" => watch_of(arguments),
        "hash" => hash_of(arguments),
        _ => None,
    }
}

// The slots that are given, if any: `None` where they are none or too many.
fn slots_of(arguments: Arguments) -> Option<Option<u32>>
    ensures some { IfSome result (λ slots. (arguments.slots ≡ slots) × AreSlots slots) }
    ensures only { (slots : Option ℕ) → arguments.slots ≡ slots → AreSlots slots → result ≡ Some slots }
{
    match arguments.slots {
        None => Some(None),
        Some(slots) if slots >= 1 && slots <= MOST_SLOTS => Some(Some(slots as u32)),
        _ => None,
    }
}

// The waiter that is named, or the first.
fn waiter_of(arguments: Arguments) -> Waiter
    ensures { result ≡ chosen arguments.waiter }
{
    arguments.waiter.unwrap_or(Waiter::Eer)
}

// How `run` is to run its scripts: `None` where a schedule is given, and a waiter or cookies beside it.
fn mode_of(arguments: Arguments) -> Option<Mode>
    ensures some { IfSome result (λ mode. IsMode mode arguments.schedule arguments.waiter arguments.cookies) }
    ensures only { (mode : mode.Mode) → IsMode mode arguments.schedule arguments.waiter arguments.cookies → result ≡ Some mode }
{
    match (arguments.schedule, arguments.waiter, arguments.cookies) {
        (None, _, cookies) => Some(Mode::Threads {
            waiter: waiter_of(arguments),
            cookies,
        }),
        (Some(number), None, false) => Some(Mode::Schedule { number }),
        _ => None,
    }
}

// The command `run`, where its options stand alone.
fn run_of(arguments: Arguments) -> Option<Command>
    ensures some { IfSome result (λ command. (slots : Option ℕ) × (mode : mode.Mode) × (command ≡ Command.Run slots mode)
        × Suits command arguments × IsInRange command) }
    ensures only { (slots : Option ℕ) (mode : mode.Mode) → Suits (Command.Run slots mode) arguments → AreSlots slots
        → result ≡ Some (Command.Run slots mode) }
{
    let Numbers::Zero = arguments.numbers else {
        return None;
    };
    Some(Command::Run {
        slots: slots_of(arguments)?,
        mode: mode_of(arguments)?,
    })
}

// The command `check`, where its option stands alone.
fn check_of(arguments: Arguments) -> Option<Command>
    ensures some { IfSome result (λ command. (slots : Option ℕ) × (command ≡ Command.Check slots) × Suits command arguments
        × IsInRange command) }
    ensures only { (slots : Option ℕ) → Suits (Command.Check slots) arguments → AreSlots slots → result ≡ Some (Command.Check slots) }
{
    match (
        arguments.schedule,
        arguments.waiter,
        arguments.cookies,
        arguments.numbers,
    ) {
        (None, None, false, Numbers::Zero) => Some(Command::Check {
            slots: slots_of(arguments)?,
        }),
        _ => None,
    }
}

// The command `hash`, where it stands alone.
fn hash_of(arguments: Arguments) -> Option<Command>
    ensures some { IfSome result (λ command. (command ≡ Command.Hash) × Suits Command.Hash arguments) }
    ensures only { Suits Command.Hash arguments → result ≡ Some Command.Hash }
{
    match (
        arguments.slots,
        arguments.schedule,
        arguments.waiter,
        arguments.cookies,
        arguments.numbers,
    ) {
        (None, None, None, false, Numbers::Zero) => Some(Command::Hash),
        _ => None,
    }
}

// The numbers of `load`, where nothing but a waiter stands beside them and they are in their ranges.
fn load_of(arguments: Arguments) -> Option<Command>
    ensures some { IfSome result (λ command. (number scripts ops : ℕ) × (waiter : waiter.Waiter)
        × (command ≡ Command.Load number scripts ops waiter)
        × Suits command arguments × IsInRange command) }
    ensures only { (number scripts ops : ℕ) (waiter : waiter.Waiter) → Suits (Command.Load number scripts ops waiter) arguments
        → IsInRange (Command.Load number scripts ops waiter) → result ≡ Some (Command.Load number scripts ops waiter) }
{
    let Numbers::Three(number, scripts, ops) = arguments.numbers else {
        return None;
    };
    if arguments.slots.is_some() || arguments.schedule.is_some() || arguments.cookies {
        return None;
    }
    if scripts == 0 || scripts > u64::from(Scripts::MOST_SCRIPTS) {
        return None;
    }
    if ops > u64::from(Scripts::MOST_OPS) || scripts * ops > u64::from(Scripts::MOST_OPS) {
        return None;
    }
    Some(Command::Load {
        number,
        scripts: scripts as u32,
        ops: ops as u32,
        waiter: waiter_of(arguments),
    })
}

// The range of `watch`, where neither a schedule nor cookies stand beside it and the low key isn't above the high one.
fn watch_of(arguments: Arguments) -> Option<Command>
    ensures some { IfSome result (λ command. (low high : ℕ) × (slots : Option ℕ) × (waiter : waiter.Waiter)
        × (command ≡ Command.Watch low high slots waiter)
        × Suits command arguments × IsInRange command) }
    ensures only { (low high : ℕ) (slots : Option ℕ) (waiter : waiter.Waiter) → Suits (Command.Watch low high slots waiter) arguments
        → IsInRange (Command.Watch low high slots waiter) → result ≡ Some (Command.Watch low high slots waiter) }
{
    let Numbers::Two(low, high) = arguments.numbers else {
        return None;
    };
    if arguments.schedule.is_some() || arguments.cookies || low > high {
        return None;
    }
    Some(Command::Watch {
        low,
        high,
        slots: slots_of(arguments)?,
        waiter: waiter_of(arguments),
    })
}
