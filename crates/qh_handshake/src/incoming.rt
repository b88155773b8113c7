ghost use Rattle.std.specs.Prelude.{◌≡◌, ◌⊎◌, ◌<◌, ◌≤◌, ◌^◌, ℕ, List, length, Option, Some, None, true, OnOk, IfOk, IfErr, IfSome};
ghost use Rattle.qh_base.specs.declared.connection_error.ConnectionError.TheVariants.{Memory as Wanting};
ghost use Rattle.qh_handshake.specs.Handshake.{IsHandshake};
ghost use Rattle.qh_handshake.specs.Incoming.{ArePacketsTaken, IsDatagramTaken, IsInitialTaken, IsOpenedBy, IsPacketHandled, IsSessionAfter, Learns, form_of, knowing};
ghost use Rattle.qh_handshake.specs.Lost.{AreInitialsLost, IsLeft, IsLost};
ghost use Rattle.qh_handshake.specs.Unread.{IsInitialUnread, IsPacketUnread};
ghost use Rattle.qh_handshake.specs.declared.initial_space.InitialSpace.{InitialSpace as ASpace};

use crate::Handshake;
use crate::packets::handle_packet;
use qh_base::{ConnectionError, ConnectionId, Moment, Side};
use qh_packet::{InitialForm, InitialPacket, Session, open_initial};
use std::alloc::Global;

impl Handshake {
    /// Takes the Initial packets with which a datagram begins, a Retry packet, or a packet of version negotiation, and answers the bytes
    /// behind the Initial packets, which none begins: they may be a 1-RTT packet. The error is the one that ends the connection. After a
    /// fault the packets behind the one at fault aren't taken. After want of memory the datagram is counted, and its Initial packets were
    /// taken up to one for which memory was wanting, or it is a Retry packet and nothing else changed. Of the space nothing more is said
    /// then, so it isn't to be used any more: the connection fails, and its handshake is used without a space from then on.
    pub fn handle_datagram<'a, S: Session>(
        &mut self,
        alloc: Global,
        session: &mut S,
        now: Moment,
        datagram: &'a [u8],
    ) -> Result<&'a [u8], ConnectionError>
        requires { IsHandshake self.old }
        ensures ok { IfOk result (λ rest. (retried learned : Option (List ℕ)) × IsDatagramTaken (S.accepts session.old) now datagram.now self.old self.new rest.now retried learned None
            × IsSessionAfter (record { name = S.name; knows = S.knows; key = S.key; sealed = S.sealed; accepts = S.accepts }) session.old session.new retried learned) }
        ensures err { IfErr result (λ e. (e ≡ Wanting) ⊎ ((rest : List ℕ) × (learned : Option (List ℕ)) × IsDatagramTaken (S.accepts session.old) now datagram.now self.old self.new rest None learned (Some e)
            × Learns (record { name = S.name; knows = S.knows; key = S.key; sealed = S.sealed; accepts = S.accepts }) session.old session.new learned)) }
        ensures wanting { IfErr result (λ e. e ≡ Wanting → (learned : Option (List ℕ)) × IsLost (S.accepts session.old) now datagram.now self.old self.new learned
            × Learns (record { name = S.name; knows = S.knows; key = S.key; sealed = S.sealed; accepts = S.accepts }) session.old session.new learned) }
        ensures whole { IsHandshake self.new }
    {
        let tried = self.new_try(alloc, datagram);
        let is_mismatch = self.is_mismatch(datagram);
        self.bytes_received = self.bytes_received.saturating_add(datagram.len() as u64);
        let Ok(retry) = tried else {
            return Err(ConnectionError::Memory);
        };
        if let Some(new) = retry {
            session.rekey(new.source);
            self.try_again(alloc, now, new);
            return Ok(&datagram[datagram.len()..]);
        }
        if is_mismatch {
            return Err(ConnectionError::VersionMismatch);
        }
        self.take_packets(alloc, session, now, datagram)
    }

    // Takes the Initial packets with which the bytes begin.
    fn take_packets<'a, S: Session>(
        &mut self,
        alloc: Global,
        session: &mut S,
        now: Moment,
        bytes: &'a [u8],
    ) -> Result<&'a [u8], ConnectionError>
        requires { IsHandshake self.old }
        ensures ok { IfOk result (λ rest. (learned : Option (List ℕ)) × ArePacketsTaken (S.accepts session.old) now bytes.now rest.now self.old self.new learned None
            × Learns (record { name = S.name; knows = S.knows; key = S.key; sealed = S.sealed; accepts = S.accepts }) session.old session.new learned) }
        ensures err { IfErr result (λ e. (e ≡ Wanting) ⊎ ((rest : List ℕ) × (learned : Option (List ℕ)) × ArePacketsTaken (S.accepts session.old) now bytes.now rest self.old self.new learned (Some e)
            × Learns (record { name = S.name; knows = S.knows; key = S.key; sealed = S.sealed; accepts = S.accepts }) session.old session.new learned)) }
        ensures wanting { IfErr result (λ e. e ≡ Wanting → (learned : Option (List ℕ)) × AreInitialsLost (S.accepts session.old) now bytes.now self.old self.new learned
            × Learns (record { name = S.name; knows = S.knows; key = S.key; sealed = S.sealed; accepts = S.accepts }) session.old session.new learned) }
        ensures whole { IsHandshake self.new }
    {
        let mut rest = bytes;
        while let Some(form) = InitialForm::read(rest) {
            self.take_initial(alloc, session, now, &form)?;
            rest = form.rest;
        }
        Ok(rest)
    }

    // Takes an Initial packet.
    fn take_initial<S: Session>(
        &mut self,
        alloc: Global,
        session: &mut S,
        now: Moment,
        form: &InitialForm<'_>,
    ) -> Result<(), ConnectionError>
        requires whole { IsHandshake self.old }
        requires source { length form.now.source.now ≤ 20 }
        ensures ok { OnOk result ((learned : Option (List ℕ)) × IsInitialTaken (S.accepts session.old) now (form_of form.now) self.old self.new learned None
            × Learns (record { name = S.name; knows = S.knows; key = S.key; sealed = S.sealed; accepts = S.accepts }) session.old session.new learned) }
        ensures err { IfErr result (λ e. (session.new ≡ session.old) × ((e ≡ Wanting) ⊎ IsInitialTaken (S.accepts session.old) now (form_of form.now) self.old self.new None (Some e))) }
        ensures wanting { IfErr result (λ e. e ≡ Wanting → IsInitialUnread (S.accepts session.old) now (form_of form.now) self.old) }
        ensures left { IfErr result (λ e. e ≡ Wanting → IsLeft form.now.source.now self.old self.new) }
        ensures whole { IsHandshake self.new }
    {
        let Some(packet) = self.open(session, form) else {
            return Ok(());
        };
        let Some(source) = ConnectionId::new(form.source) else {
            return Ok(());
        };
        self.hear(alloc, now, source, packet.number, packet.frames)?;
        self.read_hello(alloc, session)
    }

    // The Initial packet of this form, if it is one for this end.
    pub(crate) fn open<'a, S: Session>(
        &self,
        session: &S,
        form: &InitialForm<'a>,
    ) -> Option<InitialPacket<'a>>
        ensures some { IfSome result (λ p. (s : ASpace) × (self.now.space ≡ Some s) × IsOpenedBy (S.accepts session.now) self.now s (form_of form.now) p.number p.frames.now) }
        ensures none { result ≡ None → (s : ASpace) → self.now.space ≡ Some s → (number : ℕ) (frames : List ℕ) → IsOpenedBy (S.accepts session.now) self.now s (form_of form.now) number frames → ⊥ }
        ensures number { IfSome result (λ p. p.number < 2 ^ 62) }
    {
        let Some(space) = &self.space else {
            return None;
        };
        if self.knows_peer && form.source != self.remote_id.bytes() {
            return None;
        }
        if self.side == Side::Client && !form.token.is_empty() {
            return None;
        }
        let expected = space.dedup.next_expected();
        open_initial(session, form, self.side.other(), expected)
    }

    // A packet came from this id whose tag was accepted.
    fn hear(
        &mut self,
        alloc: Global,
        now: Moment,
        source: ConnectionId,
        number: u64,
        frames: &[u8],
    ) -> Result<(), ConnectionError>
        requires whole { IsHandshake self.old }
        requires number { number < 2 ^ 62 }
        requires known { self.old.knows_peer ≡ true → source ≡ self.old.remote_id }
        ensures ok { OnOk result ((s : ASpace) → self.old.space ≡ Some s → (next : ASpace) × IsPacketHandled now number frames.now s next None × (self.new ≡ knowing self.old source next)) }
        ensures err { IfErr result (λ e. (e ≡ Wanting) ⊎ ((s : ASpace) → self.old.space ≡ Some s → (next : ASpace) × IsPacketHandled now number frames.now s next (Some e) × (self.new ≡ knowing self.old source next))) }
        ensures wanting { IfErr result (λ e. e ≡ Wanting → (s : ASpace) → self.old.space ≡ Some s → IsPacketUnread now number frames.now s) }
        ensures left { (s : ASpace) → self.old.space ≡ Some s → IsLeft source self.old self.new }
        ensures whole { IsHandshake self.new }
    {
        self.remote_id = source;
        self.knows_peer = true;
        match &mut self.space {
            Some(space) => handle_packet(space, alloc, now, number, frames),
            None => Ok(()),
        }
    }
}
