//! How a call ended, and what is told of it.
ghost use Rattle.std.specs.Prelude.{◌≡◌, ◌≤◌, ◌++◌, OnOk, OnErr, decimal};
ghost use Rattle.io_edge.specs.Edge.{Rose, Appends, AppendsFront};
ghost use Rattle.command_words.specs.Statuses.{status_line, detail_line};

use crate::line_faults::LineFault;
use io_edge::{Sink, WriteFault, write_all};
use itoa::Buffer;

/// How a call of the tool ended. The numbers are the program's exit statuses.
#[derive(Clone, Copy, Debug, PartialEq, Eq)]
pub enum Status {
    /// The whole text was written.
    Done = 0,
    /// The bytes aren't an account of the scripts.
    Refused = 1,
    /// The words are no command.
    Usage = 2,
    /// A line of the scripts is bad.
    BadScript = 3,
    /// The input couldn't be read.
    ReadFault = 4,
    /// The output couldn't be written.
    WriteFault = 5,
    /// The memory wasn't there.
    NoMemory = 6,
    /// The input has more bytes than the command's limit.
    TooLong = 7,
}

impl Status {
    ghost use Rattle.std.specs.Prelude.{◌≡◌};
    ghost use Rattle.command_words.specs.Statuses.{exit_status, status_line};

    /// The exit status of the program, from 0 to 7.
    pub fn number(self) -> u8
        ensures { result ≡ exit_status self }
    {
        self as u8
    }

    /// The line that tells how the call ended, with its end: none for `Done`.
    pub fn line(self) -> &'static [u8]
        ensures { result.now ≡ status_line self }
    {
        match self {
            Status::Done => b"",
            Status::Refused => b"not an account\n",
            Status::Usage => b"usage: citrus run|check|load|watch|hash\n",
            Status::BadScript => b"bad script\n",
            Status::ReadFault => b"cannot read the input\n",
            Status::WriteFault => b"cannot write the output\n",
            Status::NoMemory => b"out of memory\n",
            Status::TooLong => b"the input is too long\n",
        }
    }
}

/// What is told of a call's end beside its status.
#[derive(Clone, Copy, Debug, PartialEq, Eq)]
pub enum Detail {
    /// Nothing.
    Nothing,
    /// What is wrong with the first bad line.
    BadLine { fault: LineFault },
    /// The first line of the input, counted from 1, that nothing explains.
    Unexplained { line: u64 },
}

/// Writes the lines that tell how the call ended, the detail before the status, and has them passed on. Where `errors` fails, a front of them
/// was written.
pub fn tell<E: Sink>(status: Status, detail: Detail, errors: &mut E)
    ensures told { (Rose (E.faults errors.old) (E.faults errors.new) → ⊥)
        → Appends (E.bytes errors.old) (E.bytes errors.new) (detail_line detail ++ status_line status) }
    ensures passed_on { (Rose (E.faults errors.old) (E.faults errors.new) → ⊥) → E.passed_on errors.new }
    ensures front { AppendsFront (E.bytes errors.old) (E.bytes errors.new) (detail_line detail ++ status_line status) }
{
    // Where nothing is taken, the exit status still tells it.
    let _ = write_report(status, detail, errors);
}

// Writes both lines: who reads the last line alone reads the status.
fn write_report<E: Sink>(status: Status, detail: Detail, errors: &mut E) -> Result<(), WriteFault>
    ensures whole { OnOk result (Appends (E.bytes errors.old) (E.bytes errors.new) (detail_line detail ++ status_line status)) }
    ensures passed { OnOk result (E.passed_on errors.new) }
    ensures fault { OnErr result (Rose (E.faults errors.old) (E.faults errors.new)) }
    ensures front { OnErr result (AppendsFront (E.bytes errors.old) (E.bytes errors.new) (detail_line detail ++ status_line status)) }
{
    write_detail(detail, errors)?;
    write_all(errors, status.line())
}

// Writes the line that tells more than the status.
fn write_detail<E: Sink>(detail: Detail, errors: &mut E) -> Result<(), WriteFault>
    ensures whole { OnOk result (Appends (E.bytes errors.old) (E.bytes errors.new) (detail_line detail)) }
    ensures passed { OnOk result (E.passed_on errors.new) }
    ensures fault { OnErr result (Rose (E.faults errors.old) (E.faults errors.new)) }
    ensures front { OnErr result (AppendsFront (E.bytes errors.old) (E.bytes errors.new) (detail_line detail)) }
    ensures counted { E.faults errors.old ≤ E.faults errors.new }
{
    match detail {
        Detail::Nothing => write_all(errors, b""),
        Detail::BadLine { fault } => write_all(errors, fault.line()),
        Detail::Unexplained { line } => {
            write_all(errors, b"nothing explains line ")?;
            write_number(line, errors)?;
            write_all(errors, b" of the input\n")
        }
    }
}

// Writes the number in decimal.
fn write_number<E: Sink>(number: u64, errors: &mut E) -> Result<(), WriteFault>
    ensures whole { OnOk result (Appends (E.bytes errors.old) (E.bytes errors.new) (decimal number)) }
    ensures fault { OnErr result (Rose (E.faults errors.old) (E.faults errors.new)) }
    ensures front { OnErr result (AppendsFront (E.bytes errors.old) (E.bytes errors.new) (decimal number)) }
    ensures counted { E.faults errors.old ≤ E.faults errors.new }
{
    let mut buffer = Buffer::new();
    write_all(errors, buffer.format(number).as_bytes())
}
