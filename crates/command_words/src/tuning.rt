//! What the options set.

ghost use Rattle.std.specs.Prelude.{◌≡◌, ◌≤◌, IsTrue, IfSome};
ghost use Rattle.chunk_tags.specs.Tunables.{IsTuned};
ghost use Rattle.command_words.specs.Options.{takes_number, bins_up_to, set};
ghost use Rattle.command_words.specs.Asked.{fresh_draft, with_choice};
ghost use Rattle.command_words.specs.Views.{IsFitting};

use crate::part::Choice;
use crate::setting::Setting;
use chunk_tags::{Mode, Tunables, cache_index, request_size};

/// What options chose so far.
#[derive(Clone, Copy, Debug, PartialEq, Eq)]
pub struct Draft {
    pub tunables: Tunables,
    pub seed: Option<u64>,
    pub lines: Option<u64>,
    pub trim: Option<u64>,
}

/// How many lists of a cache are used, where this is the largest request that is cached.
fn bins(n: u64) -> u8
    requires { n ≤ 1032 }
    ensures { result ≡ bins_up_to n }
{
    let largest = request_size(n).unwrap();
    cache_index(largest) + 1
}

/// The tunables with an option at this number.
pub(crate) fn set(setting: Setting, n: u64, t: Tunables) -> Tunables
    requires fits { IsTrue (takes_number setting n) }
    requires tuned { IsTuned t }
    ensures exact { result ≡ set setting n t }
    ensures tuned { IsTuned result }
{
    match setting {
        Setting::Mallopt(parameter) => t.with_parameter(parameter, n),
        Setting::TcacheCount => Tunables {
            tcache_count: n as u16,
            ..t
        },
        Setting::TcacheMax => Tunables {
            tcache_bins: bins(n),
            ..t
        },
        Setting::Cores => Tunables {
            cores: n as u32,
            ..t
        },
        Setting::Records => Tunables {
            records: n as u8,
            ..t
        },
        Setting::HeapMax => Tunables { heap_max: n, ..t },
        Setting::Heaps => Tunables {
            heaps: n as u16,
            ..t
        },
        Setting::MainMax => Tunables { main_max: n, ..t },
        Setting::Polls => Tunables {
            polls: n as u32,
            ..t
        },
        Setting::Gen | Setting::Lines | Setting::Trim => t,
    }
}

/// Nothing chosen yet.
pub(crate) fn fresh(mode: Mode) -> Draft
    ensures exact { result ≡ fresh_draft mode }
    ensures tuned { IsTuned result.tunables }
    ensures lines { IfSome result.lines (λ n. n ≤ 1000000) }
{
    Draft {
        tunables: Tunables::defaults(mode),
        seed: None,
        lines: None,
        trim: None,
    }
}

/// With one choice more.
pub(crate) fn choose(draft: Draft, choice: Option<Choice>) -> Draft
    requires fits { IfSome choice IsFitting }
    requires tuned { IsTuned draft.tunables }
    requires lines { IfSome draft.lines (λ n. n ≤ 1000000) }
    ensures exact { result ≡ with_choice draft choice }
    ensures tuned { IsTuned result.tunables }
    ensures lines { IfSome result.lines (λ n. n ≤ 1000000) }
{
    match choice {
        Some(Choice::Sets(Setting::Gen, n)) => Draft {
            seed: Some(n),
            ..draft
        },
        Some(Choice::Sets(Setting::Lines, n)) => Draft {
            lines: Some(n),
            ..draft
        },
        Some(Choice::Sets(Setting::Trim, n)) => Draft {
            trim: Some(n),
            ..draft
        },
        Some(Choice::Sets(setting, n)) => Draft {
            tunables: set(setting, n, draft.tunables),
            ..draft
        },
        _ => draft,
    }
}
