ghost use Rattle.std.specs.Prelude.{◌≡◌, ◌⊎◌, ◌+◌, ◌<◌, ◌≤◌, ◌^◌, ◌++◌, ◌∷◌, ◌==◌, ◌&&◌, [], ℕ, true, false, not, length, map, min, take, nat_lt, None, Some, IsSome, IfOk, IfErr, IfSome, OnOk, OnErr, All};
ghost use Rattle.qh_cids.specs.CidState.{without};
ghost use Rattle.qh_control.specs.Control.{IsControlTaken, IsSendable, KeepsSendable, asked_events, control_refusal, first_ids, keeps, new_id_refusal, renewed, retire_refusal, retired_events, retiring, token_event, token_events, with_all_issued, with_datagram, with_issued};
ghost use Rattle.qh_control.specs.Items.{logged};
ghost use Rattle.qh_control.specs.Queue.{AreSendable, StaySendable};
ghost use Rattle.qh_control.specs.declared.items.ConnectionItem.TheVariants as item;
ghost use Rattle.qh_core.specs.declared.control.ControlFrame.TheVariants as sending;
ghost use Rattle.qh_spec.specs.declared.sides.Side.{Side as ASide};
ghost use Rattle.qh_spec.specs.declared.sides.Side.TheVariants.{Server};
ghost use Rattle.qh_spec.specs.FrameTypes as frame_types;
ghost use Rattle.qh_streams.specs.Streams.{IsRefusal, IsRefusedBy, refused};
ghost use Rattle.qh_streams.specs.declared.fault.StreamFault.TheVariants.{Memory as Wanting};

use crate::{
    ConnectionItem, ConnectionLog, ControlQueue, EndpointEvent, EndpointEvents, IssuedCid,
};
use bytes::Bytes;
use qh_base::{
    ConnectionId, FrameType, Memory, Moment, Reason, ResetToken, TransportError,
    TransportErrorCode, VarInt,
};
use qh_cids::{CidQueue, CidState, LIMIT, RemoteCid};
use qh_core::ControlFrame;
use qh_datagrams::DatagramState;
use qh_frame::Frame;
use qh_streams::StreamFault;
use std::alloc::Global;
use std::net::SocketAddr;

/// While 80 RETIRE_CONNECTION_ID frames await their acknowledgement no further id is taken (RFC 9000, section 5.1.2; quinn-proto, ten
/// times the ids that are kept).
const MOST_RETIRES: usize = 80;

/// What an end of a connection keeps of the frames beside those of streams and of acknowledgement.
#[derive(Drop)]
pub struct ControlState {
    /// Where the peer is.
    pub remote: SocketAddr,
    /// The ids that the peer issued, one of which is in use.
    pub ids: CidQueue,
    /// The ids that this end issued.
    pub own_ids: CidState,
    /// How many ids this end has active at a time: as many as the peer keeps, at most 8 (own).
    pub id_limit: u64,
    /// The frames that wait, and those that are out.
    pub queue: ControlQueue,
    /// The last token that came and wasn't taken.
    pub token: Option<Bytes>,
    /// The payloads of DATAGRAM frames that wait.
    pub datagrams: DatagramState,
    /// The longest payload that this end takes, None if it takes none.
    pub datagram_receive: Option<u64>,
    /// How many bytes the payloads that wait to be sent may have together.
    pub datagram_send: u64,
    /// The longest payload that the peer takes, at most 1,140. None if it takes none, or its hello wasn't read.
    pub peer_datagram: Option<u64>,
    /// Whether the application is to be told that a datagram came, if none waited.
    pub is_datagram_due: bool,
    /// Whether it is to be told that there is room for datagrams again.
    pub is_unblocked_due: bool,
    /// What the endpoint wasn't told yet.
    pub endpoint_events: EndpointEvents,
    /// What an application can see of the connection, if it is on.
    pub log: ConnectionLog,
}

impl ControlState {
    /// Before anything came: packets go to `remote_id`, and the own id with sequence 0 has this length. The log is off.
    pub fn new(
        alloc: Global,
        remote: SocketAddr,
        local_id_len: usize,
        remote_id: ConnectionId,
        datagram_receive: Option<u64>,
        datagram_send: u64,
    ) -> Result<ControlState, Memory>
        ensures state { IfOk result (λ s. s ≡ record {
          remote = remote;
          ids = first_ids remote_id None;
          own_ids = record { id_len = local_id_len; issued = 1; active = 0 ∷ [] };
          id_limit = 0;
          queue = record { waiting = []; sent = []; room = s.queue.room };
          token = None;
          datagrams = record { incoming = []; outgoing = []; is_send_blocked = false };
          datagram_receive = datagram_receive;
          datagram_send = datagram_send;
          peer_datagram = None;
          is_datagram_due = false;
          is_unblocked_due = false;
          endpoint_events = [];
          log = None;
        }) }
        ensures sendable { IfOk result (λ s. (side : ASide) → IsSendable side None s) }
    {
        Ok(ControlState {
            remote,
            ids: CidQueue::new(remote_id, None),
            own_ids: CidState::new(alloc, local_id_len)?,
            id_limit: 0,
            queue: ControlQueue::new(alloc),
            token: None,
            datagrams: DatagramState::new(alloc),
            datagram_receive,
            datagram_send,
            peer_datagram: None,
            is_datagram_due: false,
            is_unblocked_due: false,
            endpoint_events: EndpointEvents::new(alloc),
            log: ConnectionLog::off(),
        })
    }

    /// The peer's hello was read: its id, with the token of its stateless resets if it said one, which the endpoint learns; how many ids it
    /// keeps, of which at most 8 are used (own); and the longest payload that it takes, None if it takes none, which is logged. For want of
    /// memory, only if there is a token or the log is on, nothing changes.
    pub fn greet(
        &mut self,
        remote_id: ConnectionId,
        reset_token: Option<ResetToken>,
        id_limit: u64,
        peer_datagram: Option<u64>,
    ) -> Result<(), Memory>
        ensures ok { OnOk result (self.new ≡ record self.old { ids = first_ids remote_id reset_token; id_limit = min id_limit 8; peer_datagram = peer_datagram; endpoint_events = self.old.endpoint_events ++ token_event self.old reset_token; log = logged self.old.log (item.MaxDatagramSize peer_datagram ∷ []) }) }
        ensures err { OnErr result (self.new ≡ self.old) }
        ensures wanting { OnErr result (IsSome reset_token ⊎ IsSome self.old.log) }
        ensures sendable { OnOk result ((side : ASide) → IsSendable side None self.old → IfSome peer_datagram (λ most. most ≤ 1140) → IsSendable side peer_datagram self.new) }
    {
        let entries = self.log.lend()?;
        let Ok(()) = self.tell_token(reset_token) else {
            self.log.give_back(entries);
            return Err(Memory);
        };
        let item = ConnectionItem::MaxDatagramSize(peer_datagram);
        self.log.give_back_with(entries, None, Some(item));
        self.ids = CidQueue::new(remote_id, reset_token);
        self.id_limit = id_limit.min(LIMIT as u64);
        self.peer_datagram = peer_datagram;
        Ok(())
    }

    /// The handshake is complete: the endpoint is asked for max(1, id_limit) - 1 further ids, if that is any and the own ids aren't empty
    /// (RFC 9000, section 5.1.1; quinn-proto, `issue_first_cids`). For want of memory, only if it is asked, nothing changes.
    pub fn ask_ids(&mut self, now: Moment) -> Result<(), Memory>
        ensures ok { OnOk result (self.new ≡ record self.old { endpoint_events = self.old.endpoint_events ++ asked_events now self.old }) }
        ensures err { OnErr result (self.new ≡ self.old) }
        ensures wanting { OnErr result (asked_events now self.old ≡ [] → ⊥) }
    {
        let count = self.id_limit.saturating_sub(1);
        if count == 0 || self.own_ids.id_len() == 0 {
            return Ok(());
        }
        self.endpoint_events
            .push(EndpointEvent::NeedIdentifiers(now, count))
    }

    /// The endpoint issued these ids: each is announced by a NEW_CONNECTION_ID frame that retires none. One that isn't the next by its
    /// sequence, that is empty or not as long as this end's others, or with which more ids would be active than the peer keeps (RFC 9000,
    /// section 5.1.1), as before its hello, is dropped (own): the endpoint issues none such. For want of memory those before it are announced.
    pub fn issue(&mut self, ids: &[IssuedCid]) -> Result<(), Memory>
        ensures ok { OnOk result (self.new ≡ with_all_issued self.old ids.now) }
        ensures err { OnErr result ((count : ℕ) × (count < length ids.now) × (self.new ≡ with_all_issued self.old (take count ids.now))) }
        ensures sendable { (side : ASide) → KeepsSendable side self.old self.new }
    {
        for id in ids {
            self.issue_one(id)?;
        }
        Ok(())
    }

    // Announces an id, if it may be. For want of memory nothing changes.
    fn issue_one(&mut self, cid: &IssuedCid) -> Result<(), Memory>
        ensures ok { OnOk result (self.new ≡ with_issued self.old cid.now) }
        ensures err { OnErr result (self.new ≡ self.old) }
        ensures sendable { (side : ASide) → KeepsSendable side self.old self.new }
    {
        let Some(sequence) = VarInt::from_u64(cid.sequence) else {
            return Ok(());
        };
        if cid.sequence != self.own_ids.issued() || !self.has_place(cid.id.len()) {
            return Ok(());
        }
        self.queue.push(ControlFrame::NewConnectionId {
            sequence,
            retire_prior_to: VarInt::from_u32(0),
            id: cid.id,
            reset_token: cid.reset_token,
        })?;
        if self.own_ids.issue(1).is_err() {
            self.queue.take_back();
            return Err(Memory);
        }
        Ok(())
    }

    // Whether the peer keeps an id more, and one of this length is like the others.
    fn has_place(&self, id_len: usize) -> bool
        ensures { result ≡ (not (id_len == 0) && ((id_len == self.now.own_ids.id_len) && nat_lt (length self.now.own_ids.active) self.now.id_limit)) }
    {
        id_len != 0
            && id_len == self.own_ids.id_len()
            && (self.own_ids.active() as u64) < self.id_limit
    }

    /// Takes a frame of a packet that was accepted. A fault says why it is refused, with its code and the type of the frame; nothing
    /// changed then. Memory is answered only for a frame that isn't at fault, of which something is to be kept; of an id's frame the ids
    /// and the frames that wait may have changed then. The peer's id in use stays as long as it is, and this end's ids too. A datagram that
    /// is kept is logged.
    pub fn take_frame(
        &mut self,
        alloc: Global,
        now: Moment,
        frame: &Frame<'_>,
    ) -> Result<(), StreamFault>
        ensures ok { OnOk result (IsControlTaken now self.old self.new frame.now) }
        ensures taken { OnOk result (control_refusal self.old frame.now ≡ None) }
        ensures fault { IfErr result (λ e. IsRefusedBy e (control_refusal self.old frame.now)) }
        ensures refused { IfErr result (λ e. (e ≡ Wanting → ⊥) → self.new ≡ self.old) }
        ensures memory { IfErr result (λ e. e ≡ Wanting → keeps frame.now ≡ true) }
        ensures rest { IfErr result (λ e. self.new ≡ record self.old { ids = self.new.ids; own_ids = self.new.own_ids; queue = self.new.queue }) }
        ensures sendable { (side : ASide) → KeepsSendable side self.old self.new }
        ensures as_long { length self.new.ids.active.id ≡ length self.old.ids.active.id }
        ensures id_len { self.new.own_ids.id_len ≡ self.old.own_ids.id_len }
    {
        match frame {
            Frame::NewConnectionId {
                sequence,
                retire_prior_to,
                id,
                reset_token,
            } => self.take_cid(*sequence, *retire_prior_to, *id, *reset_token),
            Frame::RetireConnectionId { sequence } => {
                self.take_retirement(now, sequence.into_inner())
            }
            Frame::Ack(ack) => {
                self.queue.on_ack(ack);
                Ok(())
            }
            Frame::NewToken { token } => self.keep_token(alloc, token),
            Frame::Datagram { payload, .. } => self.take_datagram(alloc, payload),
            _ => Ok(()),
        }
    }

    // NEW_CONNECTION_ID came (RFC 9000, section 19.15).
    fn take_cid(
        &mut self,
        sequence: VarInt,
        retire_prior_to: VarInt,
        id: ConnectionId,
        reset_token: ResetToken,
    ) -> Result<(), StreamFault>
        ensures ok { OnOk result (self.new ≡ record self.old {
          ids = (renewed self.old sequence retire_prior_to id reset_token).cids;
          queue = record self.old.queue { waiting = self.old.queue.waiting ++ retiring (renewed self.old sequence retire_prior_to id reset_token).retired };
          endpoint_events = self.old.endpoint_events ++ token_events self.old (renewed self.old sequence retire_prior_to id reset_token);
        }) }
        ensures taken { OnOk result (new_id_refusal self.old sequence retire_prior_to (renewed self.old sequence retire_prior_to id reset_token) ≡ None) }
        ensures fault { IfErr result (λ e. IsRefusedBy e (new_id_refusal self.old sequence retire_prior_to (renewed self.old sequence retire_prior_to id reset_token))) }
        ensures refused { IfErr result (λ e. (e ≡ Wanting → ⊥) → self.new ≡ self.old) }
        ensures rest { IfErr result (λ e. self.new ≡ record self.old { ids = self.new.ids; queue = self.new.queue }) }
        ensures sendable { (side : ASide) → KeepsSendable side self.old self.new }
        ensures as_long { length self.new.ids.active.id ≡ length self.old.ids.active.id }
    {
        if sequence < retire_prior_to {
            return Err(new_id_fault(TransportErrorCode::FRAME_ENCODING_ERROR));
        }
        if self.ids.active().id.is_empty() {
            return Err(new_id_fault(TransportErrorCode::PROTOCOL_VIOLATION));
        }
        if MOST_RETIRES <= self.queue.retires() {
            return Err(new_id_fault(TransportErrorCode::CONNECTION_ID_LIMIT_ERROR));
        }
        let cid = RemoteCid {
            sequence: sequence.into_inner(),
            id,
            reset_token: Some(reset_token),
        };
        let Ok(inserted) = self.ids.insert(cid, retire_prior_to.into_inner()) else {
            return Err(new_id_fault(TransportErrorCode::CONNECTION_ID_LIMIT_ERROR));
        };
        self.retire(&inserted.retired)?;
        if inserted.has_new_active {
            let token = self.ids.active().reset_token;
            self.tell_token(token)?;
        }
        Ok(())
    }

    // Ids of the peer's with these sequences are used no more.
    fn retire(&mut self, sequences: &[u64]) -> Result<(), Memory>
        requires { All (λ sequence. sequence < 2 ^ 62) sequences.now }
        ensures ok { OnOk result (self.new ≡ record self.old { queue = record self.old.queue { waiting = self.old.queue.waiting ++ retiring sequences.now } }) }
        ensures rest { self.new ≡ record self.old { queue = self.new.queue } }
        ensures sendable { (side : ASide) → KeepsSendable side self.old self.new }
    {
        for sequence in sequences {
            let sequence = VarInt::from_u64(*sequence).unwrap();
            self.queue
                .push(ControlFrame::RetireConnectionId { sequence })?;
        }
        Ok(())
    }

    // The endpoint learns a token, if there is one. For want of memory nothing changes.
    fn tell_token(&mut self, token: Option<ResetToken>) -> Result<(), Memory>
        ensures ok { OnOk result (self.new ≡ record self.old { endpoint_events = self.old.endpoint_events ++ token_event self.old token }) }
        ensures err { OnErr result (self.new ≡ self.old) }
        ensures wanting { OnErr result (IsSome token) }
    {
        let Some(token) = token else {
            return Ok(());
        };
        self.endpoint_events
            .push(EndpointEvent::ResetToken(self.remote, token))
    }

    // RETIRE_CONNECTION_ID came (RFC 9000, section 19.16).
    fn take_retirement(&mut self, now: Moment, sequence: u64) -> Result<(), StreamFault>
        ensures ok { OnOk result (self.new ≡ record self.old { own_ids = record self.old.own_ids { active = without sequence self.old.own_ids.active }; endpoint_events = self.old.endpoint_events ++ retired_events now self.old sequence }) }
        ensures taken { OnOk result (retire_refusal self.old sequence ≡ None) }
        ensures fault { IfErr result (λ e. IsRefusedBy e (retire_refusal self.old sequence)) }
        ensures refused { IfErr result (λ e. (e ≡ Wanting → ⊥) → self.new ≡ self.old) }
        ensures rest { self.new ≡ record self.old { own_ids = self.new.own_ids; endpoint_events = self.new.endpoint_events } }
        ensures wanting { IfErr result (λ e. self.new ≡ record self.old { own_ids = self.new.own_ids }) }
        ensures id_len { self.new.own_ids.id_len ≡ self.old.own_ids.id_len }
    {
        let active = self.own_ids.active();
        let Ok(may_issue) = self.own_ids.on_cid_retirement(sequence, self.id_limit) else {
            return Err(fault(
                TransportErrorCode::PROTOCOL_VIOLATION,
                FrameType::RETIRE_CONNECTION_ID,
            ));
        };
        if self.own_ids.active() != active {
            self.endpoint_events.push(EndpointEvent::RetireConnectionId(now, sequence, may_issue))?;
        }
        Ok(())
    }

    // NEW_TOKEN came (RFC 9000, section 19.7).
    fn keep_token(&mut self, alloc: Global, token: &[u8]) -> Result<(), StreamFault>
        ensures ok { OnOk result (self.new ≡ record self.old { token = Some token.now }) }
        ensures err { IfErr result (λ e. (e ≡ Wanting) × (self.new ≡ self.old)) }
    {
        let Ok(token) = Bytes::copy_from_slice(alloc, token) else {
            return Err(StreamFault::Memory);
        };
        self.token = Some(token);
        Ok(())
    }

    // DATAGRAM came (RFC 9221, section 5). One that is longer than this end takes was refused before; one that is kept is logged.
    fn take_datagram(&mut self, alloc: Global, payload: &[u8]) -> Result<(), StreamFault>
        ensures due { (most : ℕ) → self.old.datagram_receive ≡ Some most → length payload.now ≤ most → OnOk result (self.new ≡ with_datagram most self.old payload.now) }
        ensures undue { ((most : ℕ) → self.old.datagram_receive ≡ Some most → most < length payload.now) → self.new ≡ self.old }
        ensures rest { self.new ≡ record self.old { datagrams = record self.old.datagrams { incoming = self.new.datagrams.incoming }; is_datagram_due = self.new.is_datagram_due; log = self.new.log } }
        ensures err { IfErr result (λ e. (e ≡ Wanting) × (self.new ≡ self.old)) }
    {
        let Some(most) = self.datagram_receive else {
            return Ok(());
        };
        if most < payload.len() as u64 {
            return Ok(());
        }
        let Ok(payload) = Bytes::copy_from_slice(alloc, payload) else {
            return Err(StreamFault::Memory);
        };
        let item = self.log.datagram_item(&payload)?;
        let entries = self.log.lend()?;
        let Ok(is_first) = self.datagrams.received(payload, most) else {
            self.log.give_back(entries);
            return Err(StreamFault::Memory);
        };
        self.log.give_back_with(entries, None, item);
        if is_first {
            self.is_datagram_due = true;
        }
        Ok(())
    }

    /// Queues a token for the client, in a NEW_TOKEN frame (RFC 9000, section 8.1.3). For want of memory nothing changes.
    pub fn queue_token(&mut self, token: Bytes) -> Result<(), Memory>
        requires some { 1 ≤ length token }
        requires short { length token ≤ 512 }
        ensures ok { OnOk result (self.new ≡ record self.old { queue = record self.old.queue { waiting = self.old.queue.waiting ++ sending.NewToken token ∷ [] } }) }
        ensures err { OnErr result (self.new ≡ self.old) }
        ensures sendable { KeepsSendable Server self.old self.new }
    {
        self.queue.push(ControlFrame::NewToken { token })
    }

    /// The last token that came and wasn't taken. None exactly if there is none.
    pub fn take_token(&mut self) -> Option<Bytes>
        ensures value { result ≡ self.old.token }
        ensures rest { self.new ≡ record self.old { token = None } }
    {
        self.token.take()
    }

    /// What the endpoint is to be told next. None exactly if nothing is.
    pub fn poll_endpoint_event(&mut self) -> Option<EndpointEvent>
        ensures some { IfSome result (λ event. (self.old.endpoint_events ≡ event ∷ self.new.endpoint_events) × (self.new ≡ record self.old { endpoint_events = self.new.endpoint_events })) }
        ensures none { result ≡ None → (self.old.endpoint_events ≡ []) × (self.new ≡ self.old) }
    {
        self.endpoint_events.pop()
    }
}

// A NEW_CONNECTION_ID frame is at fault.
fn new_id_fault(code: TransportErrorCode) -> StreamFault
    ensures { IsRefusal result (refused code.0 frame_types.new_connection_id) }
{
    fault(code, FrameType::NEW_CONNECTION_ID)
}

// A frame of this type is at fault.
fn fault(code: TransportErrorCode, frame: FrameType) -> StreamFault
    ensures { IsRefusal result (refused code.0 frame.0) }
{
    StreamFault::Transport(TransportError {
        code,
        frame: Some(frame.0),
        reason: Reason::of(b""),
    })
}
