ghost use Rattle.std.specs.Prelude.{◌≡◌, [], Some, None, ◌^◌, ◌-◌, min, IsOk, IfOk, OnOk, OnErr, option_copied};
ghost use Rattle.std.specs.Borrow.{sem};
ghost use Rattle.qh_spec.specs.Fields.{head_fields, message_fields, trailer_fields};
ghost use Rattle.qh_spec.specs.Message.{Request, Response, target_of};
ghost use Rattle.qh_spec.specs.Size.{section_size, message_size};
ghost use Rattle.qh_service.specs.Message.{head_of};
ghost use Rattle.qh_service.specs.Lends.{lends_fields};

use crate::size::{fields_size, head_size};
use http::{Method, StatusCode};
use http_header::HeaderMap;
use http_uri::Uri;
use qh_base::Memory;
use std::alloc::Global;
use std::marker::Model;

/// What frames a message, in bytes, as `size` counts it.
const FRAMING: u64 = 64;

/// What a message begins with. Clauses see it by `head_of`.
#[derive(Drop)]
pub enum Head {
    /// What is asked, and of which resource.
    Request { method: Method, uri: Uri },
    /// How it was answered.
    Response { status: StatusCode },
}

impl Head {
    /// The same head again.
    pub fn try_clone(&self) -> Result<Head, Memory>
        ensures { IfOk result (λ copy. head_of copy ≡ head_of self.now) }
    {
        Ok(match self {
            Head::Request { method, uri } => Head::Request {
                method: method.clone()?,
                uri: uri.clone()?,
            },
            Head::Response { status } => Head::Response { status: *status },
        })
    }
}

/// A request or a response: its head, its fields, its body, and its trailers where it has them (RFC 9114, section 4.1).
#[derive(Drop)]
pub struct Message {
    head: Head,
    fields: HeaderMap,
    body: Vec<u8>,
    trailers: Option<HeaderMap>,
}

impl Model for Message {
    ghost use Rattle.qh_spec.specs.Message.{PlainMessage};

    ghost Value = { PlainMessage };

    ghost use Rattle.qh_service.specs.Message.{head_of};

    ghost view = { λ m. record { head = head_of m.head; fields = m.fields; body = m.body.items; trailers = m.trailers } };
}

impl Message {
    /// A request without fields, body and trailers. It takes no memory yet.
    pub fn request(alloc: Global, method: Method, uri: Uri) -> Result<Message, Memory>
        ensures succeeds { IsOk result }
        ensures value { IfOk result (λ m. m ≡ record { head = Request method (target_of uri); fields = []; body = []; trailers = None }) }
    {
        Ok(Message {
            head: Head::Request { method, uri },
            fields: HeaderMap::new(alloc),
            body: Vec::new(alloc),
            trailers: None,
        })
    }

    /// A response without fields, body and trailers. It takes no memory yet.
    pub fn response(alloc: Global, status: StatusCode) -> Result<Message, Memory>
        ensures succeeds { IsOk result }
        ensures value { IfOk result (λ m. m ≡ record { head = Response status; fields = []; body = []; trailers = None }) }
    {
        Ok(Message {
            head: Head::Response { status },
            fields: HeaderMap::new(alloc),
            body: Vec::new(alloc),
            trailers: None,
        })
    }

    /// The head.
    pub fn head(&self) -> &Head
        ensures { head_of result.now ≡ self.now.head }
    {
        &self.head
    }

    /// The fields.
    pub fn fields(&self) -> &HeaderMap
        ensures { result.now ≡ self.now.fields }
    {
        &self.fields
    }

    /// The fields, for writing.
    pub fn fields_mut(&mut self) -> &mut HeaderMap
        ensures* writes_back { sem 𝓛 (lends_fields self.entry result) }
        ensures value { result.now ≡ self.old.fields }
    {
        &mut self.fields
    }

    /// The body.
    pub fn body(&self) -> &[u8]
        ensures { result.now ≡ self.now.body }
    {
        &self.body
    }

    /// The trailers, where the message has them.
    pub fn trailers(&self) -> Option<&HeaderMap>
        ensures { option_copied result ≡ self.now.trailers }
    {
        self.trailers.as_ref()
    }

    /// Puts a copy of these bytes in place of the body.
    pub fn set_body(&mut self, body: &[u8]) -> Result<(), Memory>
        ensures ok { OnOk result (self.new ≡ record self.old { body = body.now }) }
        ensures err { OnErr result (self.new ≡ self.old) }
    {
        let copy = body.to_vec(*self.body.allocator())?;
        self.body = copy;
        Ok(())
    }

    /// Puts these in place of the trailers.
    pub fn set_trailers(&mut self, trailers: Option<HeaderMap>)
        ensures { self.new ≡ record self.old { trailers = trailers } }
    {
        self.trailers = trailers;
    }

    /// The same message again.
    pub fn try_clone(&self, alloc: Global) -> Result<Message, Memory>
        ensures { IfOk result (λ m. m ≡ self.now) }
    {
        Ok(Message {
            head: self.head.try_clone()?,
            fields: copy_of(&self.fields)?,
            body: self.body.to_vec(alloc)?,
            trailers: self.trailers_copy()?,
        })
    }

    /// The same trailers again.
    pub(crate) fn trailers_copy(&self) -> Result<Option<HeaderMap>, Memory>
        ensures { IfOk result (λ trailers. trailers ≡ self.now.trailers) }
    {
        match &self.trailers {
            Some(trailers) => Ok(Some(copy_of(trailers)?)),
            None => Ok(None),
        }
    }

    /// A response of these parts, without fields.
    pub(crate) fn answer(
        alloc: Global,
        status: StatusCode,
        body: Vec<u8>,
        trailers: Option<HeaderMap>,
    ) -> Message
        ensures { result ≡ record { head = Response status; fields = []; body = body.items; trailers = trailers } }
    {
        Message {
            head: Head::Response { status },
            fields: HeaderMap::new(alloc),
            body,
            trailers,
        }
    }

    /// The size of the section of the head and the fields: the lengths of each name and value and 32 for each field
    /// (RFC 9114, section 4.2.2), at most 2^64 - 1. An empty path counts as `/` (section 4.3.1).
    pub fn section_size(&self) -> u64
        ensures { result ≡ min (2 ^ 64 - 1) (section_size (message_fields self.now)) }
    {
        head_size(&self.head).saturating_add(fields_size(&self.fields))
    }

    /// The size of the section of the trailers, counted likewise; 0 without trailers.
    pub fn trailers_size(&self) -> u64
        ensures { result ≡ min (2 ^ 64 - 1) (section_size (trailer_fields self.now.trailers)) }
    {
        match &self.trailers {
            Some(trailers) => fields_size(trailers),
            None => 0,
        }
    }

    /// The sizes of both sections, the body's length, and 64 for what frames the message, at most 2^64 - 1.
    pub fn size(&self) -> u64
        ensures { result ≡ min (2 ^ 64 - 1) (message_size self.now) }
    {
        self.section_size()
            .saturating_add(self.body.len() as u64)
            .saturating_add(self.trailers_size())
            .saturating_add(FRAMING)
    }
}

// The same fields again, in the same order.
fn copy_of(fields: &HeaderMap) -> Result<HeaderMap, Memory>
    ensures { IfOk result (λ copy. copy ≡ fields.now) }
{
    Ok(fields.clone()?)
}
