//! Replies as a report has them.

ghost use Rattle.std.specs.Prelude.{◌≡◌};
ghost use Rattle.trace_replay.specs.Records.{source_of, sink_of, null_of, hold_shown, is_realloc, got_outcome, outcome_of};

use chunk_tags::{Addr, Size};
use malloc_calls::{Origin, Reply, To, Why};
use stats_text::{Outcome, Sink3, Source3};
use trace_text::Call;

/// Where a block came from.
fn source(from: Origin) -> Source3
    ensures { result ≡ source_of from }
{
    match from {
        Origin::Cached => Source3::Cached,
        Origin::Arena { a, hold } => Source3::Arena { a, hold },
        Origin::Mapped => Source3::Mapped,
    }
}

/// Where a freed block went.
fn sink(to: To) -> Sink3
    ensures { result ≡ sink_of to }
{
    match to {
        To::Cached => Sink3::Cached,
        To::Fast { a, bin } => Sink3::Fast { a, bin },
        To::Binned { a, hold } => Sink3::Binned { a, hold },
        To::Unmapped => Sink3::Unmapped,
    }
}

/// The number of a cause.
fn null(why: Why) -> u8
    ensures { result ≡ null_of why }
{
    match why {
        Why::Big => 0,
        Why::Align => 1,
        Why::Refused => 2,
    }
}

/// The hold that left a block where it was; there is none for a mapping.
fn hold(from: Origin) -> Option<u64>
    ensures { result ≡ hold_shown from }
{
    match from {
        Origin::Arena { a: _, hold } => Some(hold),
        Origin::Cached | Origin::Mapped => None,
    }
}

/// Whether a call is realloc.
fn is_realloc(call: &Call) -> bool
    ensures { result ≡ is_realloc call.now }
{
    match call {
        Call::Realloc { .. } => true,
        _ => false,
    }
}

/// A block that is got; by realloc it has moved.
fn got(realloc: bool, addr: Addr, size: Size, from: Source3) -> Outcome
    ensures { result ≡ got_outcome realloc addr size from }
{
    if realloc {
        Outcome::Moved { addr, size, from }
    } else {
        Outcome::Got { addr, size, from }
    }
}

/// What a reply to a call is in a report.
pub fn outcome(call: &Call, reply: &Reply) -> Outcome
    ensures { result ≡ outcome_of call.now reply.now }
{
    match *reply {
        Reply::Got { addr, size, from } => got(is_realloc(call), addr, size, source(from)),
        Reply::Kept { addr, size, from } => Outcome::Kept {
            addr,
            size,
            hold: hold(from),
        },
        Reply::Null(why) => Outcome::Null(null(why)),
        Reply::Freed(to) => Outcome::Freed {
            to: sink(to),
            by_realloc: is_realloc(call),
        },
        Reply::NotYours => Outcome::Skip,
        Reply::Posted => Outcome::Posted,
        Reply::Taken { addr, size } => Outcome::Taken { addr, size },
        Reply::Missed(seen) => Outcome::Missed { seen },
        Reply::Ended => Outcome::Ended,
    }
}
