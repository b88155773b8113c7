ghost use Rattle.std.specs.Prelude.{◌≡◌, [], ◌∷◌, ◌++◌, ◌-◌, take, IfOk, OnOk, OnErr, string_bytes, length};
ghost use Rattle.qh_spec.specs.Service.{request_line, echo, IsServable, IsLawful};
ghost use Rattle.qh_service.specs.Message.{head_of};
ghost use Rattle.qh_service.specs.Service.{entries_of};

use crate::{Entry, Head, Limits, Message, Service};
use http::StatusCode;
use qh_base::Memory;
use std::alloc::Global;
use std::marker::Model;

/// A service that tells each request again: status 200 without fields, and as its body the method, a space, the
/// target, a newline and the request's body, cut to the limit; its trailers are the request's. It keeps its record.
#[derive(Drop)]
pub struct Echo {
    entries: Vec<Entry>,
}

impl Model for Echo {
    ghost use Rattle.std.specs.Prelude.{List};
    ghost use Rattle.qh_spec.specs.Record.{PlainEntry};

    ghost Value = { List PlainEntry };

    ghost view = { λ e. e.entries.items };
}

impl Echo {
    /// An echo that served nothing.
    pub fn new(alloc: Global) -> Echo
        ensures { result ≡ [] }
    {
        Echo {
            entries: Vec::new(alloc),
        }
    }

    /// What it served, in order.
    pub fn served(&self) -> &[Entry]
        ensures { result.now ≡ self.now }
    {
        &self.entries
    }
}

impl Service for Echo {
    ghost served = { λ s. s };

    ghost may_answer = { λ limits request response. response ≡ echo limits.max_response_body request };

    /// Answers a request, and records both. Want of memory records nothing.
    fn serve(
        &mut self,
        alloc: Global,
        stream: u64,
        request: &Message,
        limits: &Limits,
    ) -> Result<Message, Memory>
        requires { IsServable limits.now.max_field_section_size request.now }
        ensures exact { IfOk result (λ m. m ≡ echo limits.now.max_response_body request.now) }
        ensures err { OnErr result (self.new ≡ self.old) }
        ensures recorded { self.new ≡ self.old ++ entries_of stream request.now result }
        ensures lawful { IfOk result (IsLawful limits.now.max_field_section_size limits.now.max_response_body) }
        ensures answered { IfOk result (λ m. m ≡ echo limits.now.max_response_body request.now) }
    {
        let response = echo_of(alloc, request, limits.max_response_body)?;
        let entry = entry_of(alloc, stream, request, &response)?;
        self.entries.push(entry)?;
        Ok(response)
    }
}

// The answer to this request, with a body of at most this many bytes.
fn echo_of(alloc: Global, request: &Message, limit: u64) -> Result<Message, Memory>
    ensures { IfOk result (λ m. m ≡ echo limit request.now) }
{
    let body = echo_body(alloc, request, limit as usize)?;
    let trailers = request.trailers_copy()?;
    Ok(Message::answer(alloc, StatusCode::OK, body, trailers))
}

fn entry_of(
    alloc: Global,
    stream: u64,
    request: &Message,
    response: &Message,
) -> Result<Entry, Memory>
    ensures { IfOk result (λ e. e ≡ record { stream = stream; request = request.now; response = response.now }) }
{
    Ok(Entry {
        stream,
        request: request.try_clone(alloc)?,
        response: response.try_clone(alloc)?,
    })
}

// The request's line, a newline and its body, cut to this many bytes.
fn echo_body(alloc: Global, request: &Message, limit: usize) -> Result<Vec<u8>, Memory>
    ensures { IfOk result (λ body. body.items ≡ take limit (request_line request.now.head ++ (10 ∷ request.now.body))) }
{
    let line = line_of(alloc, request.head())?;
    let mut body = Vec::new(alloc);
    push_within(&mut body, line.as_bytes(), limit)?;
    push_within(&mut body, b"\n", limit)?;
    push_within(&mut body, request.body(), limit)?;
    Ok(body)
}

// The method, a space and the target.
fn line_of(alloc: Global, head: &Head) -> Result<String, Memory>
    ensures { IfOk result (λ line. string_bytes line ≡ request_line (head_of head.now)) }
{
    match head {
        Head::Request { method, uri } => Ok(format!(in alloc; "{method} {uri}")?),
        Head::Response { .. } => Ok(String::new(alloc)),
    }
}

// Appends as much of the piece as there is room for below the limit.
fn push_within(body: &mut Vec<u8>, piece: &[u8], limit: usize) -> Result<(), Memory>
    ensures { OnOk result (body.new.items ≡ body.old.items ++ take (limit - length body.old.items) piece.now) }
{
    let room = limit.saturating_sub(body.len());
    body.extend_from_slice(&piece[..room.min(piece.len())])?;
    Ok(())
}
