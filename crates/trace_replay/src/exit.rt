//! How a run ends.

ghost use Rattle.std.specs.Prelude.{◌≡◌, Some};
ghost use Rattle.trace_replay.specs.declared.exit.Exit.TheVariants.{NoMemory as OutOfMemory};
ghost use Rattle.trace_replay.specs.Exits.{exit_of_unread, exit_of_fault};
ghost use Rattle.trace_replay.specs.Messages.{large_of, message_of};
ghost use Rattle.trace_replay.specs.Status.{status_of};

use byte_edge::Unread;
use chunk_tags::NoMemory;
use std::fmt;
use trace_text::{BadWhy, TraceFault};

/// What is too large for `--threads`.
#[derive(Clone, Copy, Debug, PartialEq, Eq)]
pub enum Large {
    /// The number of a thread.
    Thread(u8),
    /// The words that the layout needs.
    Words(u64),
}

/// How a run ended (this project's own).
#[derive(Clone, Copy, Debug, PartialEq, Eq)]
pub enum Exit {
    /// The whole text was written and flushed.
    Done,
    /// The words behind the program's name aren't taken.
    Usage,
    /// The input is no trace: its first faulty line, and that line's first fault.
    BadTrace { line: u64, why: BadWhy },
    /// The input has more than 67,108,864 bytes.
    TooLong,
    /// Something is too large for `--threads`.
    TooLarge(Large),
    /// A read failed.
    ReadFault,
    /// A write or the flush failed; what was written is a prefix of the text.
    WriteFault,
    /// The memory of the program itself ran out.
    NoMemory,
    /// A word behind the program's name asks for what isn't built yet; then the line is 0.
    NotBuilt { line: u64 },
}

impl Exit {
    /// The status that the program ends with.
    pub fn status(&self) -> u8
        ensures { result ≡ status_of self.now }
    {
        match self {
            Exit::Done => 0,
            Exit::Usage => 2,
            Exit::BadTrace { .. } => 3,
            Exit::TooLong => 4,
            Exit::TooLarge(_) => 5,
            Exit::ReadFault => 6,
            Exit::WriteFault => 7,
            Exit::NoMemory => 8,
            Exit::NotBuilt { .. } => 9,
        }
    }
}

impl fmt::Display for Large {
    ghost output = { λ large. Some (large_of large) };

    fn fmt<W: fmt::Write>(&self, f: &mut fmt::Formatter<W>) -> fmt::Result {
        match self {
            Large::Thread(thread) => write!(f, "thread {thread} with --threads"),
            Large::Words(words) => write!(f, "layout needs {words} words"),
        }
    }
}

/// The line on standard error, behind the program's name. `Done` has no text, since the program prints no line then.
impl fmt::Display for Exit {
    ghost output = { λ exit. Some (message_of exit) };

    fn fmt<W: fmt::Write>(&self, f: &mut fmt::Formatter<W>) -> fmt::Result {
        match self {
            Exit::Done => Ok(()),
            Exit::Usage => write!(f, "usage"),
            Exit::BadTrace { line, why } => {
                let why = why.name();
                write!(f, "line {line}: {why}")
            }
            Exit::TooLong => write!(f, "input too long"),
            Exit::TooLarge(large) => write!(f, "{large}"),
            Exit::ReadFault => write!(f, "read failed"),
            Exit::WriteFault => write!(f, "write failed"),
            Exit::NoMemory => write!(f, "no memory"),
            Exit::NotBuilt { line } => write!(f, "line {line}: not built"),
        }
    }
}

impl From<NoMemory> for Exit {
    ghost from_gives = { λ _ e. e ≡ OutOfMemory };

    fn from(_e: NoMemory) -> Exit {
        Exit::NoMemory
    }
}

impl From<Unread> for Exit {
    ghost from_gives = { λ unread e. e ≡ exit_of_unread unread };

    fn from(unread: Unread) -> Exit {
        match unread {
            Unread::CutOff => Exit::ReadFault,
            Unread::TooLong => Exit::TooLong,
            Unread::NoMemory => Exit::NoMemory,
        }
    }
}

impl From<TraceFault> for Exit {
    ghost from_gives = { λ fault e. e ≡ exit_of_fault fault };

    fn from(fault: TraceFault) -> Exit {
        match fault {
            TraceFault::Bad { line, why } => Exit::BadTrace { line, why },
            TraceFault::NoMemory => Exit::NoMemory,
        }
    }
}
