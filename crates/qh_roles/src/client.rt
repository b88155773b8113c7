ghost use Rattle.std.specs.Prelude.{◌≡◌, ◌⊎◌, [], ℕ, ◌+◌, ◌*◌, ◌<◌, List, true, false, Some, None, Ok, length, map, filter, replicate, IfOk, OnOk, OnErr, slice_get, slice_set, if◌then◌else◌};
ghost use Rattle.qh_core.specs.Inner.{with_streams};
ghost use Rattle.qh_core.specs.declared.inner.Inner.{Inner as AnInner};
ghost use Rattle.qh_roles.specs.Client.{AreAskable, Asking, HasOpened, IsAskedIn, held};
ghost use Rattle.qh_roles.specs.ClientSteps.{Advances, AreLeft, Goes, IsAdvanced, IsSent, KeepsAnswers, MayOpenNone, is_left, is_over, with_answer};
ghost use Rattle.qh_roles.specs.Going.{WentFrom};
ghost use Rattle.qh_roles.specs.Streams.{Acted, IsReading, IsStirred};
ghost use Rattle.qh_spec.specs.Message.{PlainMessage};
ghost use Rattle.qh_spec.specs.Transcript.{Act};
ghost use Rattle.qh_spec.specs.declared.sides.Side.TheVariants.{Client as TheClient};

use crate::outgoing::give_up;
use crate::{Incoming, Outgoing, ReadState, WriteState};
use qh_base::{Code, Dir, Memory, StreamId};
use qh_conduct::behaves;
use qh_core::{Connection, made};
use qh_message::{read_response, write_message};
use qh_service::Message;
use std::alloc::Global;
use std::marker::Model;
use std::mem;

/// A client's part of an exchange: it asks each request on a stream of its own, the i-th on stream 4*i, and holds the answers
/// that came.
#[derive(Drop)]
pub struct Client {
    requests: Vec<Message>,
    // The index of the first request that has no stream yet.
    next: usize,
    streams: Vec<RequestStream>,
    // As many as requests.
    answers: Vec<Option<Message>>,
    // How many answers are held.
    count: usize,
}

impl Model for Client {
    ghost use Rattle.qh_roles.specs.Client.{PlainClient};

    ghost Value = { PlainClient };

    ghost view = { λ c. record { requests = c.requests.items; next = c.next; streams = c.streams.items; answers = c.answers.items } };

    ghost use Rattle.std.specs.Prelude.{◌≡◌};
    ghost use Rattle.qh_roles.specs.Client.{IsClient, held};

    ghost invariant = { λ c. IsClient (record { requests = c.requests.items; next = c.next; streams = c.streams.items; answers = c.answers.items }) × (c.count ≡ held c.answers.items) };
}

/// The stream of a request whose answer isn't held yet.
#[derive(Drop)]
pub struct RequestStream {
    /// Which request.
    pub index: usize,
    /// How far it is.
    pub state: RequestState,
}

/// How far a request is (h3, `RequestStream`).
#[derive(Drop)]
pub enum RequestState {
    /// Bytes of it are left to be sent.
    Sending(Outgoing),
    /// It was sent, and its answer is to come.
    Receiving(Incoming),
    /// Its answer is held, or the stream was given up.
    Done,
}

impl Client {
    /// A client without requests. It takes no memory.
    pub fn new(alloc: Global) -> Client
        ensures value { result ≡ record { requests = []; next = 0; streams = []; answers = [] } }
        ensures asking { Asking result [] }
    {
        Client {
            requests: Vec::new(alloc),
            next: 0,
            streams: Vec::new(alloc),
            answers: Vec::new(alloc),
            count: 0,
        }
    }

    /// Takes copies of the requests to ask. It is called once, before a stream is opened.
    pub fn ask(&mut self, alloc: Global, requests: &[Message]) -> Result<(), Memory>
        requires once { (self.old.next ≡ 0) × (self.old.streams ≡ []) × (self.old.requests ≡ []) }
        requires askable { AreAskable requests.now }
        ensures ok { IfOk result (λ _. self.new.requests ≡ requests.now) }
        ensures unused { (self.new.next ≡ 0) × (self.new.streams ≡ []) × (held self.new.answers ≡ 0) }
        ensures places { length self.new.answers ≡ length self.new.requests }
        ensures err { OnErr result (self.new ≡ self.old) }
        ensures asking { Asking self.new [] }
    {
        // What holds of the fields is known at each exit once one was looked at.
        let _ = &self.requests;
        let copies = copies_of(alloc, requests)?;
        let answers = no_answers(alloc, requests.len())?;
        self.requests = copies;
        self.answers = answers;
        self.count = 0;
        Ok(())
    }

    /// How many answers are held.
    pub fn held(&self) -> usize
        ensures { result ≡ held self.now.answers }
    {
        self.count
    }

    /// The requests.
    pub fn requests(&self) -> &[Message]
        ensures { result.now ≡ self.now.requests }
    {
        &self.requests
    }

    /// The answers that are held, in the order of the requests.
    pub fn into_answers(self, alloc: Global) -> Result<Vec<Message>, Memory>
        ensures { IfOk result (λ all. held self.answers ≡ length self.answers → map Some all.items ≡ self.answers) }
    {
        let mut all = Vec::with_capacity(alloc, self.count)?;
        for answer in self.answers {
            if let Some(answer) = answer {
                all.push(answer)?;
            }
        }
        Ok(all)
    }

    /// Looks at each stream once: writes what is left of each request, reads what came of each answer, and opens streams for
    /// further requests if the peer permits it. How far a stream goes in one call is in no clause. Want of memory gives up the stream on which it came.
    pub fn poll<S>(&mut self, alloc: Global, connection: &mut Connection<S>) -> Result<(), Memory>
        requires side { connection.old.side ≡ TheClient }
        ensures rest { connection.new ≡ with_streams connection.old connection.new.space.streams }
        ensures requests { self.new.requests ≡ self.old.requests }
        ensures places { length self.new.answers ≡ length self.old.answers }
        ensures kept { KeepsAnswers self.old.answers self.new.answers }
        ensures opened { HasOpened self.old connection.old → HasOpened self.new connection.new }
        ensures asks { (start : AnInner S) (before t : List Act) → WentFrom start before connection.old t → HasOpened self.old connection.old → Asking self.old t → Acted start before (Asking self.new) connection.new t }
        ensures going { OnOk result (AreLeft self.new.streams) }
        ensures opens { OnOk result ((self.new.next ≡ length self.new.requests) ⊎ MayOpenNone connection.new) }
    {
        for at in 0..self.streams.len() {
            self.poll_stream(alloc, at, connection)?;
        }
        self.open_all(alloc, connection)?;
        self.forget_done();
        Ok(())
    }

    // Goes on with one of the streams. Its state is taken out meanwhile, so that want of memory leaves it done.
    fn poll_stream<S>(
        &mut self,
        alloc: Global,
        at: usize,
        connection: &mut Connection<S>,
    ) -> Result<(), Memory>
        requires within { at < length self.old.streams }
        ensures goes { Goes self.old connection.old self.new connection.new }
        ensures length { length self.new.streams ≡ length self.old.streams }
        ensures next { self.new.next ≡ self.old.next }
    {
        let index = self.streams[at].index;
        let done = RequestStream {
            index,
            state: RequestState::Done,
        };
        let stream = self.replace(at, done);
        let (state, answer) = stream.state.advance(alloc, connection)?;
        let _done = self.replace(at, RequestStream { index, state });
        self.hold(index, answer);
        Ok(())
    }

    // Puts this in place of one of the streams.
    fn replace(&mut self, at: usize, stream: RequestStream) -> RequestStream
        requires within { at < length self.old.streams }
        requires opened { stream.index < self.old.next }
        ensures value { slice_get self.old.streams at ≡ Some result }
        ensures replaced { self.new ≡ record self.old { streams = slice_set self.old.streams at stream } }
    {
        mem::replace(&mut self.streams[at], stream)
    }

    // Holds the answer of this index, where there is one.
    fn hold(&mut self, index: usize, answer: Option<Message>)
        requires within { index < length self.old.answers }
        ensures { self.new ≡ record self.old { answers = with_answer self.old.answers index answer } }
    {
        let Some(answer) = answer else {
            return;
        };
        let is_first = put_answer(&mut self.answers, index, answer);
        self.count += usize::from(is_first);
    }

    // Forgets the streams with which nothing more is done.
    fn forget_done(&mut self)
        ensures { self.new ≡ record self.old { streams = filter is_left self.old.streams } }
    {
        self.streams.retain(|stream| !stream.is_done());
    }

    // Opens streams for further requests, as many as the peer permits, and goes on with each.
    fn open_all<S>(&mut self, alloc: Global, connection: &mut Connection<S>) -> Result<(), Memory>
        requires side { connection.old.side ≡ TheClient }
        ensures goes { Goes self.old connection.old self.new connection.new }
        ensures opens { OnOk result ((self.new.next ≡ length self.new.requests) ⊎ MayOpenNone connection.new) }
    {
        for _request in self.next..self.requests.len() {
            if !self.open(alloc, connection)? {
                return Ok(());
            }
        }
        Ok(())
    }

    // Opens a stream for the next request, where the peer permits it, and goes on with it; whether it did.
    fn open<S>(&mut self, alloc: Global, connection: &mut Connection<S>) -> Result<bool, Memory>
        requires side { connection.old.side ≡ TheClient }
        ensures goes { Goes self.old connection.old self.new connection.new }
        ensures more { result ≡ Ok true → self.new.next ≡ self.old.next + 1 }
        ensures none { result ≡ Ok false → (self.new.next ≡ length self.new.requests) ⊎ MayOpenNone connection.new }
    {
        // An open connection has no error: its contract says so from here on.
        connection.is_owed();
        behaves::<S>();
        made::<S>();
        if self.next == self.requests.len() {
            return Ok(false);
        }
        let Some(stream) = connection.open(Dir::Bi)? else {
            return Ok(false);
        };
        self.begin(alloc, stream)?;
        let last = self.streams.len() - 1;
        self.poll_stream(alloc, last, connection)?;
        Ok(true)
    }

    // Takes this stream for the next request.
    fn begin(&mut self, alloc: Global, stream: StreamId) -> Result<(), Memory>
        requires left { self.old.next < length self.old.requests }
        ensures next { self.new.next ≡ self.old.next + 1 }
        ensures same { (self.new.requests ≡ self.old.requests) × (self.new.answers ≡ self.old.answers) }
        ensures some { OnOk result (0 < length self.new.streams) }
        ensures asks { (t : List Act) → stream.0 ≡ 4 * self.old.next → Asking self.old t → Asking self.new t }
    {
        let index = self.next;
        self.next += 1;
        let bytes = write_message(alloc, &self.requests[index])?;
        let state = RequestState::Sending(Outgoing::new(stream, bytes));
        self.streams.push(RequestStream { index, state })?;
        Ok(())
    }
}

// Puts an answer into its place, and tells whether it is the first one there.
fn put_answer(answers: &mut [Option<Message>], index: usize, answer: Message) -> bool
    requires within { index < length answers.old }
    ensures put { answers.new ≡ slice_set answers.old index (Some answer) }
    ensures first { held answers.new ≡ held answers.old + (if result then 1 else 0) }
{
    let before = mem::replace(&mut answers[index], Some(answer));
    before.is_none()
}

// The same messages again.
fn copies_of(alloc: Global, messages: &[Message]) -> Result<Vec<Message>, Memory>
    ensures { IfOk result (λ all. all.items ≡ messages.now) }
{
    let mut all = Vec::with_capacity(alloc, messages.len())?;
    for message in messages {
        all.push(message.try_clone(alloc)?)?;
    }
    Ok(all)
}

// So many places without an answer.
fn no_answers(alloc: Global, count: usize) -> Result<Vec<Option<Message>>, Memory>
    ensures { IfOk result (λ all. all.items ≡ replicate count None) }
{
    let mut all = Vec::with_capacity(alloc, count)?;
    for _place in 0..count {
        all.push(None)?;
    }
    Ok(all)
}

impl RequestStream {
    // Whether nothing more is done with it.
    fn is_done(&self) -> bool
        ensures { result ≡ is_over self.now.state }
    {
        matches!(self.state, RequestState::Done)
    }
}

impl RequestState {
    // Goes on: sends what is left, or reads what came; the answer, if it is whole now.
    fn advance<S>(
        self,
        alloc: Global,
        connection: &mut Connection<S>,
    ) -> Result<(RequestState, Option<Message>), Memory>
        ensures stirred { IsStirred connection.old connection.new }
        ensures advances { (requests : List PlainMessage) (index : ℕ) (start : AnInner S) (before t : List Act) → WentFrom start before connection.old t → IsAskedIn requests t index self → Advances start before (IsAdvanced requests index result) requests index connection.new t }
    {
        match self.send(alloc, connection)? {
            RequestState::Receiving(incoming) => receive(alloc, incoming, connection),
            state => Ok((state, None)),
        }
    }

    // Sends what is left of the request.
    fn send<S>(self, alloc: Global, connection: &mut Connection<S>) -> Result<RequestState, Memory>
        ensures stirred { IsStirred connection.old connection.new }
        ensures sends { (requests : List PlainMessage) (index : ℕ) (start : AnInner S) (before t : List Act) → WentFrom start before connection.old t → IsAskedIn requests t index self → Advances start before (IsSent requests index result) requests index connection.new t }
    {
        let RequestState::Sending(mut outgoing) = self else {
            return Ok(self);
        };
        let stream = outgoing.stream();
        match outgoing.write(connection)? {
            WriteState::Blocked => Ok(RequestState::Sending(outgoing)),
            WriteState::Finished => Ok(RequestState::Receiving(Incoming::new(alloc, stream))),
            WriteState::Refused => {
                give_up(connection, stream, Code::H3_REQUEST_CANCELLED);
                Ok(RequestState::Done)
            }
        }
    }
}

// Reads what came of the answer.
fn receive<S>(
    alloc: Global,
    incoming: Incoming,
    connection: &mut Connection<S>,
) -> Result<(RequestState, Option<Message>), Memory>
    ensures stirred { IsStirred connection.old connection.new }
    ensures receives { (requests : List PlainMessage) (index : ℕ) (start : AnInner S) (before t : List Act) → WentFrom start before connection.old t → incoming.stream ≡ 4 * index → IsReading t incoming → Advances start before (IsAdvanced requests index result) requests index connection.new t }
{
    let mut incoming = incoming;
    match incoming.read(connection)? {
        ReadState::Blocked => Ok((RequestState::Receiving(incoming), None)),
        ReadState::Ended => Ok((RequestState::Done, read_response(alloc, incoming.bytes())?)),
        ReadState::Refused => Ok((RequestState::Done, None)),
    }
}
