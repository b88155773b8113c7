//! What a line sets.

ghost use Rattle.std.specs.Prelude.{◌≡◌};
ghost use Rattle.std.specs.Option.{option_map};
ghost use Rattle.qh_base.specs.declared.time.Span.{Span as TheSpan};
ghost use Rattle.qh_spec.specs.Script.{from_millis as the_millis, idle_of as the_idle, set_config as the_config, set_rounds as the_rounds, set_step as the_step};

use crate::Config;
use qh_base::Span;
use qh_spec::Setting;

/// The settings with this number, where it is one of theirs.
pub(super) fn set_config(config: &mut Config, setting: Setting, n: u64)
    ensures { config.new ≡ the_config setting n config.old }
{
    match setting {
        Setting::Section => config.max_field_section_size = n,
        Setting::RequestBody => config.max_request_body = n,
        Setting::Response => config.max_response_body = n,
        Setting::Cap => config.max_requests = n,
        Setting::Bidi => config.max_bidi = n,
        Setting::Window => {
            config.receive_window = n;
            config.stream_window = n;
        }
        Setting::Idle => config.idle = idle_of(n),
        Setting::Rtt => config.initial_rtt = from_millis(n),
        Setting::Rounds | Setting::Step => {}
    }
}

/// How many rounds there are at most, where this number says it.
pub(super) fn set_rounds(rounds: Option<u64>, setting: Setting, n: u64) -> Option<u64>
    ensures { result ≡ the_rounds setting n rounds }
{
    match setting {
        Setting::Rounds => Some(n),
        _ => rounds,
    }
}

/// How long a round lasts, where this number says it.
pub(super) fn set_step(step: u64, setting: Setting, n: u64) -> u64
    ensures { result ≡ the_step setting n step }
{
    match setting {
        Setting::Step => n,
        _ => step,
    }
}

// The time of a line `idle`, where 0 is for ever.
fn idle_of(n: u64) -> Option<Span>
    ensures { option_map (λ (idle : TheSpan). idle.0) result ≡ the_idle n }
{
    if n == 0 { None } else { Some(from_millis(n)) }
}

// So many milliseconds, or the longest time.
fn from_millis(n: u64) -> Span
    ensures { result.0 ≡ the_millis n }
{
    Span(n.saturating_mul(1_000_000))
}
