//! Laws of settings: which fit, and how many rounds are enough.

ghost use Rattle.std.specs.Prelude.{◌≡◌, ◌+◌, ◌-◌, ◌^◌, ℕ, true, [], ◌∷◌, Some, None};
ghost use Rattle.qh_spec.specs.Config.{default_config, Fits};
ghost use Rattle.qh_spec.specs.ConfigRows.{least_config, greatest_config};
ghost use Rattle.qh_spec.specs.MessageRows.{get_message, long_message};
ghost use Rattle.qh_spec.specs.Size.{message_size, enough_rounds};

/// The settings that count if nothing is said fit. So do settings with each number at its least and with each at its greatest,
/// an idle time that is for ever, and, without Retry, a token that lives for no time.
pub fn fitting()
    ensures default { Fits default_config }
    ensures least { Fits least_config }
    ensures greatest { Fits greatest_config }
    ensures endless { Fits (record default_config { idle = None }) }
    ensures short_lived { Fits (record default_config { retry_token_lifetime = 0 }) }
{}

/// Settings with a size one above its greatest don't fit.
pub fn sizes()
    ensures requests { Fits (record default_config { max_requests = 2 ^ 20 + 1 }) → ⊥ }
    ensures section { Fits (record default_config { max_field_section_size = 2 ^ 20 + 1 }) → ⊥ }
    ensures request_body { Fits (record default_config { max_request_body = 2 ^ 30 + 1 }) → ⊥ }
    ensures response_body { Fits (record default_config { max_response_body = 2 ^ 30 + 1 }) → ⊥ }
{}

/// Connection ids of 7 or 21 bytes don't fit, nor does version 2, be it used, offered or both, nor that nothing is offered.
pub fn ids()
    ensures short_local { Fits (record default_config { local_id_len = 7 }) → ⊥ }
    ensures long_local { Fits (record default_config { local_id_len = 21 }) → ⊥ }
    ensures short_first { Fits (record default_config { first_id_len = 7 }) → ⊥ }
    ensures long_first { Fits (record default_config { first_id_len = 21 }) → ⊥ }
    ensures version { Fits (record default_config { version = 2 }) → ⊥ }
    ensures offered { Fits (record default_config { versions = 1 ∷ 2 ∷ [] }) → ⊥ }
    ensures both { Fits (record default_config { versions = 2 ∷ []; version = 2 }) → ⊥ }
    ensures none { Fits (record default_config { versions = [] }) → ⊥ }
{}

/// An idle time a nanosecond below a second doesn't fit, nor does a round-trip time a nanosecond below 100 milliseconds or
/// above 10 seconds.
pub fn times()
    ensures idle { Fits (record default_config { idle = Some 999999999 }) → ⊥ }
    ensures short_rtt { Fits (record default_config { initial_rtt = 99999999 }) → ⊥ }
    ensures long_rtt { Fits (record default_config { initial_rtt = 10000000001 }) → ⊥ }
{}

/// Settings with a number of streams or a window one past one of its bounds don't fit.
pub fn windows()
    ensures no_bidi { Fits (record default_config { max_bidi = 0 }) → ⊥ }
    ensures many_bidi { Fits (record default_config { max_bidi = 2 ^ 40 }) → ⊥ }
    ensures few_uni { Fits (record default_config { max_uni = 3 }) → ⊥ }
    ensures many_uni { Fits (record default_config { max_uni = 2 ^ 40 }) → ⊥ }
    ensures small_receive { Fits (record default_config { receive_window = 1199 }) → ⊥ }
    ensures great_receive { Fits (record default_config { receive_window = 2 ^ 40 }) → ⊥ }
    ensures small_stream { Fits (record default_config { stream_window = 1199 }) → ⊥ }
    ensures great_stream { Fits (record default_config { stream_window = 2 ^ 40 }) → ⊥ }
    ensures small_send { Fits (record default_config { send_window = 1199 }) → ⊥ }
    ensures great_send { Fits (record default_config { send_window = 2 ^ 40 }) → ⊥ }
    ensures small_initial { Fits (record default_config { initial_window = 2399 }) → ⊥ }
    ensures great_initial { Fits (record default_config { initial_window = 2 ^ 40 }) → ⊥ }
{}

/// Settings that let no attempt wait or that buffer 2^40 bytes of one or of all don't fit, nor does Retry with a token that
/// lives a nanosecond less than 2^62.
pub fn attempts()
    ensures incoming { Fits (record default_config { max_incoming = 0 }) → ⊥ }
    ensures buffer { Fits (record default_config { incoming_buffer_size = 2 ^ 40 }) → ⊥ }
    ensures buffer_total { Fits (record default_config { incoming_buffer_size_total = 2 ^ 40 }) → ⊥ }
    ensures retry { Fits (record default_config { retry = true; retry_token_lifetime = 2 ^ 62 - 1 }) → ⊥ }
{}

/// The size of GET https://a.test/, and that of a message with a body of 7 bytes and a trailer of 4.
pub fn message_sizes()
    ensures get { message_size get_message ≡ 236 }
    ensures long { message_size long_message ≡ 149 }
{}

/// How many rounds are enough: for no request, for GET https://a.test/ with the bounds that count if nothing is said and with
/// smaller ones, and for it twice. They are at most the greatest number of 64 bits.
pub fn rounds()
    ensures none { (section body : ℕ) → enough_rounds section body [] ≡ 512 }
    ensures default { enough_rounds default_config.max_field_section_size default_config.max_response_body (get_message ∷ []) ≡ 4327152 }
    ensures small { enough_rounds 4096 1000 (get_message ∷ []) ≡ 38544 }
    ensures two { enough_rounds 100 100 (get_message ∷ get_message ∷ []) ≡ 5440 }
    ensures most { enough_rounds (2 ^ 62) 0 (get_message ∷ []) ≡ 2 ^ 64 - 1 }
{}
