//! One-way streams of the peer (RFC 9114, section 6.2, and RFC 9204, section 4.2).
ghost use Rattle.std.specs.Prelude.{◌≡◌, ℕ, Option, Result, Err, IfNone, IfSome, None, Ok, Some, false, true};
ghost use Rattle.futures.specs.Poll.{OnPending};
ghost use Rattle.futures.specs.Task.{IsArmed, Keeps};
ghost use Rattle.futures.specs.declared.task.Poll.{Poll};
ghost use Rattle.futures.specs.declared.task.Poll.TheVariants.{Ready};
ghost use Rattle.qh_spec.specs.Codes.{h3_stream_creation_error as creation};
ghost use Rattle.qh_h3.specs.OneWay.{IsLetGo, IsOnly, IsPlaced, is_refused, kind_at, known_by, place_of, sorted, sorted_poll};
ghost use Rattle.qh_h3.specs.Streams.{if_done, stopping};
ghost use Rattle.qh_h3.specs.Typed.{IsTyped};
ghost use Rattle.qh_h3.specs.declared.frame.error.FrameStreamError.{FrameStreamError as FrameFault};
ghost use Rattle.qh_h3.specs.declared.frame.error.FrameStreamError.TheVariants.{Quic as Failed};

use crate::connection::control::ended;
use crate::error::ErrorOrigin;
use crate::frame::{FrameStream, FrameStreamError};
use crate::quic::{ConnectionErrorIncoming, RecvStream, StreamErrorIncoming};
use futures::task::{Context, Poll};
use qh_base::{Code, Memory, VarInt};
use qh_h3wire::StreamType;
use std::alloc::Global;
use std::marker::Model;
use std::mem;

// What a one-way stream is.
#[derive(Clone, Copy)]
pub(crate) enum Kind {
    Control,
    Push,
    Encoder,
    Decoder,
    // Of a type without a meaning here.
    Unknown,
    // It ended or failed before its type was whole.
    Gone,
}

// The kind that a type stands for.
fn kind_of(number: VarInt) -> Kind
    ensures { result ≡ kind_at number }
{
    let number = number.into_inner();
    if number == StreamType::CONTROL.0 {
        Kind::Control
    } else if number == StreamType::PUSH.0 {
        Kind::Push
    } else if number == StreamType::ENCODER.0 {
        Kind::Encoder
    } else if number == StreamType::DECODER.0 {
        Kind::Decoder
    } else {
        Kind::Unknown
    }
}

// What a stream is once its type was looked for, or why the connection ends.
pub(crate) fn sort(found: Result<Option<VarInt>, FrameStreamError>) -> Result<Kind, ErrorOrigin>
    ensures { result ≡ sorted found }
{
    match found {
        Ok(Some(number)) => Ok(kind_of(number)),
        Ok(None) => Ok(Kind::Gone),
        Err(FrameStreamError::Quic(error)) => sort_fault(error),
        Err(FrameStreamError::Memory) => { Err(ErrorOrigin::Quic(ConnectionErrorIncoming::Memory)) }
        Err(_) => Ok(Kind::Gone),
    }
}

// The same of a stream that failed.
fn sort_fault(error: StreamErrorIncoming) -> Result<Kind, ErrorOrigin>
    ensures { result ≡ sorted (Err (Failed error)) }
{
    match error {
        StreamErrorIncoming::ConnectionErrorIncoming { connection_error } => {
            Err(ErrorOrigin::Quic(connection_error))
        }
        StreamErrorIncoming::Memory => Err(ErrorOrigin::Quic(ConnectionErrorIncoming::Memory)),
        _ => Ok(Kind::Gone),
    }
}

// A one-way stream of the peer that isn't placed yet.
pub(crate) struct Waiting<S> {
    pub(crate) stream: FrameStream<S>,
    // What it is, once its type came.
    pub(crate) kind: Option<Kind>,
}

impl<S> Model for Waiting<S> {
    ghost use Rattle.qh_h3.specs.OneWay.{Waiting as Seen};

    ghost Value = { Seen S };

    ghost view = { λ s. record { stream = s.stream; kind = s.kind } };
}

impl<S: RecvStream> Waiting<S> {
    // What the stream is, once its type came, or why the connection ends. The budget is lowered by each piece that is taken.
    pub(crate) fn poll_kind(
        &mut self,
        at: &mut S::At,
        alloc: Global,
        budget: &mut u32,
        cx: &mut Context<'_>,
    ) -> Poll<Result<Kind, ErrorOrigin>>
        ensures known { IfSome self.old.kind (λ kind. (result ≡ Ready (Ok kind)) × (self.new ≡ self.old) × (at.new ≡ at.old) × (budget.new ≡ budget.old)) }
        ensures sorted { IfNone self.old.kind ((found : Poll (Result (Option ℕ) FrameFault)) × (result ≡ sorted_poll found) × (self.new.kind ≡ known_by result)
            × IsTyped found budget.old budget.new (S.received self.old.stream.stream at.old) (S.received self.new.stream.stream at.new) (S.counts self.old.stream.stream at.old) (S.counts self.new.stream.stream at.new) self.old.stream.held self.new.stream.held) }
        ensures sent { S.sent self.new.stream.stream at.new ≡ S.sent self.old.stream.stream at.old }
        ensures id { S.id self.new.stream.stream ≡ S.id self.old.stream.stream }
        ensures armed { OnPending result (IsArmed cx.new) }
        ensures kept { Keeps cx.old cx.new }
    {
        if let Some(kind) = self.kind {
            return Poll::Ready(Ok(kind));
        }
        match self.stream.poll_type(at, alloc, budget, cx) {
            Poll::Pending => Poll::Pending,
            Poll::Ready(found) => match sort(found) {
                Ok(kind) => {
                    self.kind = Some(kind);
                    Poll::Ready(Ok(kind))
                }
                Err(error) => Poll::Ready(Err(error)),
            },
        }
    }

    // Asks the peer to send no more on a stream of an unknown type. Of any other it does nothing.
    pub(crate) fn refuse(&mut self, at: &mut S::At, alloc: Global) -> Result<(), Memory>
        ensures stopped { is_refused self.old.kind ≡ true → S.received self.new.stream.stream at.new ≡ if_done (stopping creation) result (S.received self.old.stream.stream at.old) }
        ensures other { is_refused self.old.kind ≡ false → (result ≡ Ok tt) × (self.new ≡ self.old) × (at.new ≡ at.old) }
        ensures kind { self.new.kind ≡ self.old.kind }
        ensures held { self.new.stream.held ≡ self.old.stream.held }
        ensures sent { S.sent self.new.stream.stream at.new ≡ S.sent self.old.stream.stream at.old }
        ensures counts { S.counts self.new.stream.stream at.new ≡ S.counts self.old.stream.stream at.old }
        ensures id { S.id self.new.stream.stream ≡ S.id self.old.stream.stream }
    {
        match self.kind {
            Some(Kind::Unknown) => {
                self.stream
                    .stop_sending(at, alloc, Code::H3_STREAM_CREATION_ERROR.0)
            }
            _ => Ok(()),
        }
    }
}

// The streams of the peer that are kept, at most one of each kind.
pub(crate) struct Kept<S> {
    pub(crate) control: Option<FrameStream<S>>,
    pub(crate) encoder: Option<FrameStream<S>>,
    pub(crate) decoder: Option<FrameStream<S>>,
}

impl<S> Model for Kept<S> {
    ghost use Rattle.qh_h3.specs.OneWay.{Kept as Seen};

    ghost Value = { Seen S };

    ghost view = { λ s. record { control = s.control; encoder = s.encoder; decoder = s.decoder } };
}

impl<S> Kept<S> {
    // No stream.
    pub(crate) fn new() -> Kept<S>
        ensures { result ≡ record { control = None; encoder = None; decoder = None } }
    {
        Kept {
            control: None,
            encoder: None,
            decoder: None,
        }
    }
}

impl<S: RecvStream> Kept<S> {
    // Keeps the first stream of a kind, and lets all others go. A second stream of a kind ends the connection.
    pub(crate) fn place(
        &mut self,
        at: &mut S::At,
        stream: FrameStream<S>,
        kind: Kind,
    ) -> Result<(), ErrorOrigin>
        ensures placed { IsPlaced kind stream result self.old self.new }
        ensures let_go { IsLetGo (place_of kind self.old) (at.new ≡ at.old) (S.ends stream.stream at.old at.new) }
    {
        match kind {
            Kind::Control => keep(&mut self.control, at, stream, b"a second control stream"),
            Kind::Encoder => keep(&mut self.encoder, at, stream, b"a second encoder stream"),
            Kind::Decoder => keep(&mut self.decoder, at, stream, b"a second decoder stream"),
            _ => {
                stream.end(at);
                Ok(())
            }
        }
    }
}

// Keeps a stream if there is none yet.
fn keep<S: RecvStream>(
    place: &mut Option<FrameStream<S>>,
    at: &mut S::At,
    stream: FrameStream<S>,
    text: &[u8],
) -> Result<(), ErrorOrigin>
    ensures only { IsOnly stream result place.old place.new }
    ensures let_go { IsLetGo (Some place.old) (at.new ≡ at.old) (S.ends stream.stream at.old at.new) }
{
    match mem::replace(place, Some(stream)) {
        None => Ok(()),
        Some(first) => {
            if let Some(second) = mem::replace(place, Some(first)) {
                second.end(at);
            }
            Err(ended(Code::H3_STREAM_CREATION_ERROR, text))
        }
    }
}
