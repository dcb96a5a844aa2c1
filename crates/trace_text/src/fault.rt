//! Why a text is no trace.

ghost use Rattle.std.specs.Prelude.{◌≡◌};
ghost use Rattle.trace_text.specs.FaultWords.{word_of};
ghost use Rattle.trace_text.specs.declared.fault.TraceFault.TheVariants.{NoMemory};

use std::alloc::AllocFailed;

/// What is wrong with a line (this project's own).
#[derive(Clone, Copy, Debug, PartialEq, Eq)]
pub enum BadWhy {
    /// It has no newline.
    Cut,
    /// The first line is neither `ptmtrace 1` nor `ptmtrace 2`.
    Header,
    /// A field is empty, there are fewer than two, or not as many as the command has.
    Fields,
    /// A field behind the command isn't a number below 2^64.
    Number,
    /// The first field isn't a number from 0 to 63.
    Thread,
    /// The thread has ended.
    Ended,
    /// The second field isn't a command.
    Command,
    /// Thread 0 doesn't end.
    MainExit,
    /// The name isn't from 1 to the highest of the trace's version.
    Name,
    /// The name is to be made, and is held.
    Held,
    /// The name isn't held.
    NotHeld,
    /// The tray is above 65,535.
    Tray,
    /// The tray was posted to, or taken from, by an earlier line.
    TrayTwice,
}

impl BadWhy {
    /// The word for the fault, as the program prints it.
    pub fn name(self) -> &'static str
        ensures { result.now ≡ word_of self }
    {
        match self {
            BadWhy::Cut => "Cut",
            BadWhy::Header => "Header",
            BadWhy::Fields => "Fields",
            BadWhy::Number => "Number",
            BadWhy::Thread => "Thread",
            BadWhy::Ended => "Ended",
            BadWhy::Command => "Command",
            BadWhy::MainExit => "MainExit",
            BadWhy::Name => "Name",
            BadWhy::Held => "Held",
            BadWhy::NotHeld => "NotHeld",
            BadWhy::Tray => "Tray",
            BadWhy::TrayTwice => "TrayTwice",
        }
    }
}

/// Why no trace was read.
#[derive(Clone, Copy, Debug, PartialEq, Eq)]
pub enum TraceFault {
    /// The first faulty line, counted from 1, and its first fault.
    Bad { line: u64, why: BadWhy },
    /// The memory of the program itself ran out.
    NoMemory,
}

impl From<chunk_tags::NoMemory> for TraceFault {
    ghost from_gives = { λ _ e. e ≡ NoMemory };

    fn from(_e: chunk_tags::NoMemory) -> TraceFault {
        TraceFault::NoMemory
    }
}

impl<T: Drop> From<AllocFailed<T>> for TraceFault {
    ghost from_gives = { λ _ e. e ≡ NoMemory };

    fn from(_e: AllocFailed<T>) -> TraceFault {
        TraceFault::NoMemory
    }
}
