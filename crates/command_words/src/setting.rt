//! The options that take a value.

ghost use Rattle.std.specs.Prelude.{◌≡◌};
ghost use Rattle.command_words.specs.Options.{row_of, lowest_of, setting_named, is_within};

use chunk_tags::Parameter;

/// What an option with a value sets; the field of the tunables says what it means.
#[derive(Clone, Copy, Debug, PartialEq, Eq)]
pub enum Setting {
    /// A parameter of mallopt(3).
    Mallopt(Parameter),
    TcacheCount,
    TcacheMax,
    Cores,
    Records,
    HeapMax,
    Heaps,
    MainMax,
    Polls,
    Gen,
    Lines,
    Trim,
}

/// How a number has to be, beside its range.
#[derive(Clone, Copy, Debug, PartialEq, Eq)]
pub enum Form {
    Any,
    PowerOfTwo,
    /// A multiple of 4,096.
    Pages,
}

/// The numbers that an option takes.
#[derive(Clone, Copy, Debug, PartialEq, Eq)]
pub struct Range {
    pub lowest: u64,
    pub highest: u64,
    pub form: Form,
}

impl Range {
    pub(crate) fn has(&self, n: u64) -> bool
        ensures { result ≡ is_within self.now n }
    {
        self.lowest <= n
            && n <= self.highest
            && match self.form {
                Form::Any => true,
                Form::PowerOfTwo => n.is_power_of_two(),
                Form::Pages => n % 4096 == 0,
            }
    }
}

fn any_within(lowest: u64, highest: u64) -> Range
    ensures { result ≡ record { lowest = lowest; highest = highest; form = Form.Any } }
{
    Range {
        lowest,
        highest,
        form: Form::Any,
    }
}

/// The lowest value of the option for a parameter of mallopt(3).
fn lowest(parameter: Parameter) -> u64
    ensures { result ≡ lowest_of parameter }
{
    match parameter {
        Parameter::ArenaTest => 1,
        Parameter::Mxfast
        | Parameter::TrimThreshold
        | Parameter::TopPad
        | Parameter::MmapThreshold
        | Parameter::MmapMax
        | Parameter::ArenaMax => 0,
    }
}

impl Setting {
    /// The option with this name; `None` where no option that takes a value has it.
    #[tactic(auto, unfolding(crate::specs::Options::setting_named))]
    pub(crate) fn named(name: &str) -> Option<Setting>
        ensures { result ≡ setting_named name.now }
    {
        match name {
            "mxfast" => Some(Setting::Mallopt(Parameter::Mxfast)),
            "trim-threshold" => Some(Setting::Mallopt(Parameter::TrimThreshold)),
            "top-pad" => Some(Setting::Mallopt(Parameter::TopPad)),
            "mmap-threshold" => Some(Setting::Mallopt(Parameter::MmapThreshold)),
            "mmap-max" => Some(Setting::Mallopt(Parameter::MmapMax)),
            "arena-test" => Some(Setting::Mallopt(Parameter::ArenaTest)),
            "arena-max" => Some(Setting::Mallopt(Parameter::ArenaMax)),
            "tcache-count" => Some(Setting::TcacheCount),
            "tcache-max" => Some(Setting::TcacheMax),
            "cores" => Some(Setting::Cores),
            "records" => Some(Setting::Records),
            "heap-max" => Some(Setting::HeapMax),
            "heaps" => Some(Setting::Heaps),
            "main-max" => Some(Setting::MainMax),
            "polls" => Some(Setting::Polls),
            "gen" => Some(Setting::Gen),
            "lines" => Some(Setting::Lines),
            "trim" => Some(Setting::Trim),
            _ => None,
        }
    }

    /// The numbers that the option takes.
    pub(crate) fn range(self) -> Range
        ensures { result ≡ (row_of self).range }
    {
        match self {
            Setting::Mallopt(parameter) => any_within(lowest(parameter), parameter.largest()),
            Setting::TcacheCount => any_within(0, 127),
            Setting::TcacheMax => any_within(0, 1032),
            Setting::Cores | Setting::Records | Setting::Heaps => any_within(1, 64),
            Setting::HeapMax => Range {
                lowest: 65_536,
                highest: 67_108_864,
                form: Form::PowerOfTwo,
            },
            Setting::MainMax => Range {
                lowest: 4096,
                highest: 1_073_741_824,
                form: Form::Pages,
            },
            Setting::Polls => any_within(1, 1_000_000),
            Setting::Gen => any_within(0, u64::MAX),
            Setting::Lines => any_within(0, 1_000_000),
            Setting::Trim => any_within(0, 2_147_483_647),
        }
    }
}
