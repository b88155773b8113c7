ghost use Rattle.std.specs.Prelude.{◌≡◌, ◌↔◌, ◌+◌, ◌<◌, ◌≤◌, ◌^◌, ◌++◌, [], ◌∷◌, Ok, Err, IfOk, OnOk, OnErr, length, nat_lt};
ghost use Rattle.qh_cids.specs.CidState.{IsState, sequences_from, without};
ghost use Rattle.qh_cids.specs.declared.cid_state.RetireError.TheVariants.{NotInUse, Unissued};

use qh_base::Memory;
use std::alloc::Global;
use std::marker::Model;
use thiserror::Error;

/// Why a RETIRE_CONNECTION_ID frame is refused, with PROTOCOL_VIOLATION (RFC 9000, section 19.16).
#[derive(Clone, Copy, Debug, PartialEq, Eq, Error)]
pub enum RetireError {
    /// This end has no ids: the one that it gave is empty.
    #[error("a connection id was retired, and none is in use")]
    NotInUse,
    /// No id with this sequence was issued.
    #[error("a connection id was retired that wasn't issued")]
    Unissued,
}

/// The sequences of the ids that this end issued, and which of them weren't retired (RFC 9000, section 5.1.1).
#[derive(Drop)]
pub struct CidState {
    id_len: usize,
    issued: u64,
    // Rising.
    active: Vec<u64>,
}

impl Model for CidState {
    ghost use Rattle.qh_cids.specs.CidState.{PlainState, IsState};

    ghost Value = { PlainState };

    ghost view = { λ s. record { id_len = s.id_len; issued = s.issued; active = s.active.items } };

    ghost invariant = { λ s. IsState (record { id_len = s.id_len; issued = s.issued; active = s.active.items }) };
}

impl CidState {
    /// One id was issued, with sequence 0, of this length (RFC 9000, section 5.1.1).
    pub fn new(alloc: Global, id_len: usize) -> Result<CidState, Memory>
        ensures { IfOk result (λ s. s ≡ record { id_len = id_len; issued = 1; active = 0 ∷ [] }) }
    {
        let mut active = Vec::new(alloc);
        active.push(0)?;
        Ok(CidState {
            id_len,
            issued: 1,
            active,
        })
    }

    /// So many more ids are issued, with the next sequences (RFC 9000, section 5.1.1). None of these is 2^62 or more, which
    /// frames couldn't bear. Without memory the value is as it was.
    pub fn issue(&mut self, count: u64) -> Result<(), Memory>
        requires { self.old.issued + count ≤ 2 ^ 62 }
        ensures after { OnOk result (self.new ≡ record self.old { issued = self.old.issued + count; active = self.old.active ++ sequences_from self.old.issued count }) }
        ensures unchanged { OnErr result (self.new ≡ self.old) }
    {
        append_sequences(&mut self.active, self.issued, count)?;
        self.issued += count;
        Ok(())
    }

    /// A RETIRE_CONNECTION_ID frame came: its sequence is active no more (RFC 9000, section 19.16). A sequence that was retired
    /// before changes nothing. The answer is whether the peer, which keeps `limit` ids at most, may be given another one, since
    /// fewer are active (RFC 9000, section 5.1.1).
    ///
    /// It goes through the active ones. There are few while this end issues no more than the peer keeps, which isn't asked here.
    pub fn on_cid_retirement(&mut self, sequence: u64, limit: u64) -> Result<bool, RetireError>
        ensures not_in_use { (result ≡ Err NotInUse) ↔ (self.old.id_len ≡ 0) }
        ensures unissued { (result ≡ Err Unissued) ↔ ((0 < self.old.id_len) × (self.old.issued ≤ sequence)) }
        ensures unchanged { OnErr result (self.new ≡ self.old) }
        ensures after { OnOk result (self.new ≡ record self.old { active = without sequence self.old.active }) }
        ensures may_issue { IfOk result (λ may. may ≡ nat_lt (length (without sequence self.old.active)) limit) }
    {
        if self.id_len == 0 {
            return Err(RetireError::NotInUse);
        }
        if self.issued <= sequence {
            return Err(RetireError::Unissued);
        }
        self.active.retain(|other| *other != sequence);
        Ok((self.active.len() as u64) < limit)
    }

    /// How long each id is.
    pub fn id_len(&self) -> usize
        ensures { result ≡ self.now.id_len }
    {
        self.id_len
    }

    /// How many ids were issued, with the sequences below this number.
    pub fn issued(&self) -> u64
        ensures value { result ≡ self.now.issued }
        ensures sound { IsState self.now }
    {
        self.issued
    }

    /// How many ids are active: issued, and not retired.
    pub fn active(&self) -> usize
        ensures value { result ≡ length self.now.active }
        ensures sound { IsState self.now }
    {
        self.active.len()
    }
}

// Appends so many sequences, from `first` on. Without memory the list is as it was.
fn append_sequences(active: &mut Vec<u64>, first: u64, count: u64) -> Result<(), Memory>
    requires { first + count ≤ 2 ^ 62 }
    ensures after { OnOk result (active.new.items ≡ active.old.items ++ sequences_from first count) }
    ensures unchanged { OnErr result (active.new.items ≡ active.old.items) }
{
    let held = active.len();
    for i in 0..count {
        if active.push(first + i).is_err() {
            active.truncate(held);
            return Err(Memory);
        }
    }
    Ok(())
}
