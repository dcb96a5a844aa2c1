//! Setting tunables by number: mallopt(3).

ghost use Rattle.std.specs.Prelude.{◌≡◌, ◌≤◌, false, is_ok};
ghost use Rattle.chunk_tags.specs.Mallopt.{parameter_numbered, least_of, largest_of, max_fast_of, set_parameter, mallopt_takes, mallopt_of};
ghost use Rattle.chunk_tags.specs.Tunables.{IsTuned};

use crate::refusals::Refused;
use crate::tunables::Tunables;

/// What mallopt(3) sets, named as there.
#[derive(Clone, Copy, Debug, PartialEq, Eq)]
pub enum Parameter {
    /// M_MXFAST: the largest request that a fast chunk serves, in bytes.
    Mxfast,
    /// M_TRIM_THRESHOLD: the size of top from which it is trimmed, in bytes.
    TrimThreshold,
    /// M_TOP_PAD: what is asked for beyond a request, in bytes.
    TopPad,
    /// M_MMAP_THRESHOLD: the size from which a chunk is mapped, in bytes.
    MmapThreshold,
    /// M_MMAP_MAX: how many mapped chunks there may be.
    MmapMax,
    /// M_ARENA_TEST: how many arenas exist before their limit is settled.
    ArenaTest,
    /// M_ARENA_MAX: the limit on arenas.
    ArenaMax,
}

/// The largest `int`.
const MAX_INT: u64 = 2_147_483_647;

impl Parameter {
    /// The parameter with this number; `None` where no parameter has it.
    fn numbered(number: i32) -> Option<Parameter>
        ensures { result ≡ parameter_numbered number }
    {
        match number {
            1 => Some(Parameter::Mxfast),
            -1 => Some(Parameter::TrimThreshold),
            -2 => Some(Parameter::TopPad),
            -3 => Some(Parameter::MmapThreshold),
            -4 => Some(Parameter::MmapMax),
            -7 => Some(Parameter::ArenaTest),
            -8 => Some(Parameter::ArenaMax),
            _ => None,
        }
    }

    /// The least value that sets it: 0 leaves the counts of arenas as they are.
    fn least(self) -> u64
        ensures { result ≡ least_of self }
    {
        match self {
            Parameter::ArenaTest | Parameter::ArenaMax => 1,
            Parameter::Mxfast
            | Parameter::TrimThreshold
            | Parameter::TopPad
            | Parameter::MmapThreshold
            | Parameter::MmapMax => 0,
        }
    }

    /// The largest value that it takes.
    pub fn largest(self) -> u64
        ensures { result ≡ largest_of self }
    {
        match self {
            Parameter::Mxfast => 160,
            Parameter::MmapThreshold => 33_554_432,
            Parameter::TrimThreshold
            | Parameter::TopPad
            | Parameter::MmapMax
            | Parameter::ArenaTest
            | Parameter::ArenaMax => MAX_INT,
        }
    }
}

/// The largest size of a fast chunk for a value: glibc's `set_max_fast`.
fn max_fast(n: u64) -> u64
    requires { n ≤ 160 }
    ensures { result ≡ max_fast_of n }
{
    if n < 8 { 16 } else { (n + 8) / 16 * 16 }
}

/// The tunables with the dynamic threshold off.
fn steady(t: Tunables) -> Tunables
    ensures { result ≡ record t { dynamic = false } }
{
    Tunables {
        dynamic: false,
        ..t
    }
}

impl Tunables {
    /// With a parameter at this value. The trim threshold, the top pad, the mmap threshold and the most
    /// mapped chunks switch the dynamic threshold off, whatever the value.
    pub fn with_parameter(self, parameter: Parameter, n: u64) -> Tunables
        requires { n ≤ largest_of parameter }
        ensures exact { result ≡ set_parameter parameter n self }
        ensures tuned { IsTuned self → IsTuned result }
    {
        match parameter {
            Parameter::Mxfast => Tunables {
                max_fast: max_fast(n),
                ..self
            },
            Parameter::TrimThreshold => Tunables {
                trim_threshold: n,
                ..steady(self)
            },
            Parameter::TopPad => Tunables {
                top_pad: n,
                ..steady(self)
            },
            Parameter::MmapThreshold => Tunables {
                mmap_threshold: n,
                ..steady(self)
            },
            Parameter::MmapMax => Tunables {
                mmaps_max: n,
                ..steady(self)
            },
            Parameter::ArenaTest => Tunables {
                arena_test: n as u32,
                ..self
            },
            Parameter::ArenaMax => Tunables {
                arena_max: n as u32,
                ..self
            },
        }
    }

    /// Sets the parameter with this number, as mallopt(3). Sizes are in bytes. A number that no parameter
    /// has is taken with any value, and changes nothing. `Refused` where a parameter is given a negative
    /// value (own) or one above its largest; then nothing changed.
    pub fn mallopt(&mut self, param: i32, value: i64) -> Result<(), Refused>
        ensures taken { is_ok result ≡ mallopt_takes param value }
        ensures set { self.new ≡ mallopt_of param value self.old }
        ensures tuned { IsTuned self.old → IsTuned self.new }
    {
        let Some(parameter) = Parameter::numbered(param) else {
            return Ok(());
        };
        let Ok(n) = u64::try_from(value) else {
            return Err(Refused);
        };
        if n > parameter.largest() {
            return Err(Refused);
        }
        if n >= parameter.least() {
            *self = self.with_parameter(parameter, n);
        }
        Ok(())
    }
}
