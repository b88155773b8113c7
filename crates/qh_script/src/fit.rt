ghost use Rattle.std.specs.Prelude.{◌≡◌, ◌+◌, ◌*◌, ◌-◌, ◌^◌, ◌↔◌, min, sum_by, IsTrue};
ghost use Rattle.qh_spec.specs.Size.{message_size, enough_rounds};
ghost use Rattle.qh_spec.specs.Config.{Fits, FitSizes, FitIds, FitVersions, FitTimes, FitWindows, FitAttempts, Within, From};
ghost use Rattle.qh_script.specs.Config.{FitsBesides};

use crate::Config;
use qh_service::Message;

/// Whether an exchange can be made with these settings: `exchange` asks for it.
pub fn fits(config: &Config) -> bool
    ensures { IsTrue result ↔ Fits config.now }
{
    fits_besides(config) && versions_fit(config)
}

/// Whether they fit but for the versions.
pub(crate) fn fits_besides(config: &Config) -> bool
    ensures { IsTrue result ↔ FitsBesides config.now }
{
    let sizes = sizes_fit(config) && ids_fit(config);
    sizes && times_fit(config) && windows_fit(config) && attempts_fit(config)
}

fn sizes_fit(config: &Config) -> bool
    ensures { IsTrue result ↔ FitSizes config.now }
{
    config.max_requests <= 1 << 20
        && config.max_field_section_size <= 1 << 20
        && config.max_request_body <= 1 << 30
        && config.max_response_body <= 1 << 30
}

fn ids_fit(config: &Config) -> bool
    ensures { IsTrue result ↔ FitIds config.now }
{
    is_within(8, 20, config.local_id_len) && is_within(8, 20, config.first_id_len)
}

fn versions_fit(config: &Config) -> bool
    ensures { IsTrue result ↔ FitVersions config.now }
{
    config.versions.iter().all(|v| *v == 1) && config.versions.contains(&config.version)
}

fn times_fit(config: &Config) -> bool
    ensures { IsTrue result ↔ FitTimes config.now }
{
    let rtt_fits = is_within(100_000_000, 10_000_000_000, config.initial_rtt.0);
    match config.idle {
        Some(idle) => idle.0 >= 1_000_000_000 && rtt_fits,
        None => rtt_fits,
    }
}

fn windows_fit(config: &Config) -> bool
    ensures { IsTrue result ↔ FitWindows config.now }
{
    let streams = is_from(1, config.max_bidi) && is_from(4, config.max_uni);
    let receive = is_from(1_200, config.receive_window) && is_from(1_200, config.stream_window);
    let send = is_from(1_200, config.send_window) && is_from(2_400, config.initial_window);
    streams && receive && send
}

fn attempts_fit(config: &Config) -> bool
    ensures { IsTrue result ↔ FitAttempts config.now }
{
    config.max_incoming >= 1
        && config.incoming_buffer_size < 1 << 40
        && config.incoming_buffer_size_total < 1 << 40
        && (!config.retry || config.retry_token_lifetime.0 >= 1 << 62)
}

fn is_within(low: u64, high: u64, n: u64) -> bool
    ensures { IsTrue result ↔ Within low high n }
{
    low <= n && n <= high
}

// From the low number on and below 2^40.
fn is_from(low: u64, n: u64) -> bool
    ensures { IsTrue result ↔ From low (2 ^ 40) n }
{
    low <= n && n < 1 << 40
}

/// How many rounds are enough for these requests over a link that neither loses nor delays: the greatest number of 64
/// bits where they are more.
pub fn enough(config: &Config, requests: &[Message]) -> u64
    ensures { result ≡ enough_rounds config.now.max_field_section_size config.now.max_response_body requests.now }
{
    let count = requests.len() as u64;
    let sections = config.max_field_section_size.saturating_mul(2);
    let answer = sections
        .saturating_add(config.max_response_body)
        .saturating_add(64);
    let sizes = total_size(requests).saturating_add(count.saturating_mul(answer));
    let fixed = 512u64.saturating_add(count.saturating_mul(64));
    fixed.saturating_add(sizes.saturating_mul(4))
}

fn total_size(requests: &[Message]) -> u64
    ensures { result ≡ min (2 ^ 64 - 1) (sum_by message_size requests.now) }
{
    let mut total = 0u64;
    for request in requests {
        total = total.saturating_add(request.size());
    }
    total
}
