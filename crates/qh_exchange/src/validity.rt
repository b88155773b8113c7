ghost use Rattle.std.specs.Prelude.{◌≡◌, None, IfErr, IfOk, IfSome, OnErr};
ghost use Rattle.qh_plain.specs.Undecided.{IsUndecidedList};
ghost use Rattle.qh_spec.specs.Validity.{IsFaultIndex, IsValidList};
ghost use Rattle.qh_pair.specs.Errors.{IfInvalid, IfMemory};
ghost use Rattle.qh_exchange.specs.Exchange.{IsListError};

use crate::{Config, ExchangeError, Message};
use qh_base::Memory;
use qh_plain::requests;

/// Whether a list may be asked: `Invalid` names the first request that may not be, or that is one too many. `Memory` is answered only
/// at a request whose path is shown as `/` and may be empty; it has no other fault, and each request before it may be asked.
pub fn valid(config: &Config, requests: &[Message]) -> Result<(), ExchangeError>
    ensures ok { IfOk result (λ _. IsValidList config.now.max_requests config.now.max_field_section_size config.now.max_request_body requests.now) }
    ensures invalid { IfInvalid result (λ index. IsFaultIndex config.now.max_requests config.now.max_field_section_size config.now.max_request_body requests.now index) }
    ensures memory { IfMemory result (IsUndecidedList config.now.max_requests config.now.max_field_section_size config.now.max_request_body requests.now) }
    ensures errors { IfErr result IsListError }
{
    match fault_index(config, requests)? {
        Some(index) => Err(ExchangeError::Invalid { index }),
        None => Ok(()),
    }
}

// The index of the first request that may not be asked, or that is one too many: None exactly where the list is valid.
fn fault_index(config: &Config, requests: &[Message]) -> Result<Option<usize>, Memory>
    ensures some { IfOk result (λ found. IfSome found (IsFaultIndex config.now.max_requests config.now.max_field_section_size config.now.max_request_body requests.now)) }
    ensures none { IfOk result (λ found. (found ≡ None) → IsValidList config.now.max_requests config.now.max_field_section_size config.now.max_request_body requests.now) }
    ensures memory { OnErr result (IsUndecidedList config.now.max_requests config.now.max_field_section_size config.now.max_request_body requests.now) }
{
    requests::fault_index(
        config.max_requests,
        config.max_field_section_size,
        config.max_request_body,
        requests,
    )
}
