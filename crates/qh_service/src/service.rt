ghost use Rattle.std.specs.Prelude.{◌≡◌, ◌++◌, List, IfOk};
ghost use Rattle.qh_spec.specs.Message.{PlainMessage};
ghost use Rattle.qh_spec.specs.Record.{PlainEntry};
ghost use Rattle.qh_spec.specs.Service.{IsServable, IsLawful};
ghost use Rattle.qh_service.specs.Service.{entries_of};
ghost use Rattle.qh_service.specs.declared.service.Limits.{Limits as PlainLimits};

use crate::Message;
use qh_base::Memory;
use std::alloc::Global;
use std::marker::Model;

/// What a response may measure.
#[derive(Clone, Copy)]
pub struct Limits {
    /// The greatest size of a field section (RFC 9114, section 4.2.2).
    pub max_field_section_size: u64,
    /// The greatest length of a response's body, in bytes.
    pub max_response_body: u64,
}

/// What a service was asked, on which stream, and what it answered.
#[derive(Drop)]
pub struct Entry {
    pub stream: u64,
    pub request: Message,
    pub response: Message,
}

impl Model for Entry {
    ghost use Rattle.qh_spec.specs.Record.{PlainEntry};

    ghost Value = { PlainEntry };

    ghost view = { λ e. record { stream = e.stream; request = e.request; response = e.response } };
}

/// What answers requests.
pub trait Service {
    /// What it served, in order.
    ghost served: { Self → List PlainEntry };

    /// What it may answer to a request, beyond what every service may.
    ghost may_answer: { PlainLimits → PlainMessage → PlainMessage → Type 0 };

    /// Answers a request, and records both. Want of memory records nothing.
    fn serve(
        &mut self,
        alloc: Global,
        stream: u64,
        request: &Message,
        limits: &Limits,
    ) -> Result<Message, Memory>
        requires { IsServable limits.now.max_field_section_size request.now }
        ensures recorded { served self.new ≡ served self.old ++ entries_of stream request.now result }
        ensures lawful { IfOk result (IsLawful limits.now.max_field_section_size limits.now.max_response_body) }
        ensures answered { IfOk result (may_answer limits.now request.now) };
}
