//! How the program ends: its status, and the line on standard error.

ghost use Rattle.std.specs.Prelude.{◌≡◌, ◌++◌, Some, codes};
ghost use Rattle.std.specs.Process.{exit_status};
ghost use Rattle.trace_replay.specs.Status.{status_of};
ghost use Rattle.trace_replay.specs.Messages.{message_of};

use std::fmt;
use std::process::ExitCode;
use trace_replay::Exit;

/// A refusal as the line on standard error tells it.
#[derive(Drop)]
pub struct Complaint(pub Exit);

impl fmt::Display for Complaint {
    ghost output = { λ c. Some (codes "kernel_calls: " ++ message_of c.0) };

    fn fmt<W: fmt::Write>(&self, f: &mut fmt::Formatter<W>) -> fmt::Result {
        let exit = self.0;
        write!(f, "kernel_calls: {exit}")
    }
}

/// The status of the program.
pub fn exit_code(exit: Exit) -> ExitCode
    ensures { exit_status result ≡ status_of exit }
{
    ExitCode::from(exit.status())
}
