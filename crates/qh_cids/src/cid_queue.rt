ghost use Rattle.std.specs.Prelude.{◌≡◌, ◌≢◌, ◌↔◌, ◌+◌, ◌<◌, ◌≤◌, ◌^◌, ◌++◌, ℕ, false, nat_lt, nat_le, List, [], ◌∷◌, length, filter, map, insert, All, IsErr, IsSome, IsTrue, IfOk, IfSome, OnErr, OnOk};
ghost use Rattle.std.specs.Option.{option_to_list};
ghost use Rattle.arrayvec.specs.ArrayVec.{array_vec_len};
ghost use Rattle.qh_cids.specs.CidQueue.{IsQueue, added, gone, handled, has_sequence as has_sequence_by, held, is_late as is_late_by, is_repeated as is_repeated_by, limit, raised, settled, with_cid};
ghost use Rattle.qh_cids.specs.declared.cid_queue.RemoteCid.{RemoteCid as Remote};

use arrayvec::ArrayVec;
use qh_base::{ConnectionId, ResetToken};
use std::marker::Model;
use thiserror::Error;

/// How many ids of the peer's an end keeps at most: what its hello says as its active_connection_id_limit (own).
pub const LIMIT: usize = 8;

/// An id that the peer issued, with its sequence (RFC 9000, section 5.1.1).
#[derive(Clone, Copy)]
pub struct RemoteCid {
    pub sequence: u64,
    pub id: ConnectionId,
    /// The token of the stateless resets that belong to it. None for the id of the peer's first packet at a server.
    pub reset_token: Option<ResetToken>,
}

/// What fills the unused places of a list: no id of a peer's.
impl Default for RemoteCid {
    fn default() -> RemoteCid {
        RemoteCid {
            sequence: 0,
            id: ConnectionId::new(&[]).unwrap(),
            reset_token: None,
        }
    }
}

/// Why a NEW_CONNECTION_ID frame is refused.
#[derive(Clone, Copy, Debug, PartialEq, Eq, Error)]
pub enum InsertError {
    /// With it there would be more ids than this end announced that it keeps, also without those that are to be retired:
    /// CONNECTION_ID_LIMIT_ERROR (RFC 9000, section 5.1.1).
    #[error("too many connection ids")]
    ExceedsLimit,
}

/// What a NEW_CONNECTION_ID frame makes necessary.
#[derive(Drop)]
pub struct Inserted {
    /// The sequences that are to be retired by RETIRE_CONNECTION_ID frames: of the ids that waited, in order, then of the
    /// frame's own id, if it isn't kept, then of the id that was in use, if another one is now.
    pub retired: ArrayVec<u64, 9>,
    /// Whether another id is in use now: to that the next packets go.
    pub has_new_active: bool,
}

/// The ids that the peer issued and that weren't retired, one of which is in use (RFC 9000, section 5.1).
#[derive(Drop)]
pub struct CidQueue {
    active: RemoteCid,
    // In the order of their sequences: at most 7, and 8 for the moment before the first comes into use.
    waiting: ArrayVec<RemoteCid, LIMIT>,
    retire_prior_to: u64,
}

impl Model for CidQueue {
    ghost use Rattle.qh_cids.specs.CidQueue.{PlainCids, IsQueue};

    ghost Value = { PlainCids };

    ghost view = { λ q. record { active = q.active; waiting = q.waiting.items; retire_prior_to = q.retire_prior_to } };

    ghost invariant = { λ q. IsQueue (record { active = q.active; waiting = q.waiting.items; retire_prior_to = q.retire_prior_to }) };
}

impl CidQueue {
    /// The peer's id is this, with sequence 0, and with its reset token if its hello said one (RFC 9000, section 5.1.1).
    pub fn new(id: ConnectionId, reset_token: Option<ResetToken>) -> CidQueue
        ensures { result ≡ record { active = record { sequence = 0; id = id; reset_token = reset_token }; waiting = []; retire_prior_to = 0 } }
    {
        CidQueue {
            active: RemoteCid {
                sequence: 0,
                id,
                reset_token,
            },
            waiting: ArrayVec::new(),
            retire_prior_to: 0,
        }
    }

    /// A NEW_CONNECTION_ID frame came: it bears this id, and says that all sequences below `retire_prior_to` are to be retired
    /// (RFC 9000, section 19.15). Its sequence is below 2^62, as all in frames are.
    ///
    /// An id below what earlier frames said, other than that in use, is to be retired at once. One whose sequence is known is
    /// a repetition: the one that came first stays (own). One that isn't as long as the id in use isn't kept, and is to be retired (own). Any other
    /// is added, if then, without those that are to be retired, there are at most `LIMIT`. Else the frame is refused, and the
    /// value is as it was.
    ///
    /// If the id in use is to be retired, the first that waits comes into use. If none waits it stays (own). So what is to be
    /// retired is never in use then: a packet that says it has another destination (RFC 9000, section 19.16). The id in use is as long as
    /// the one before.
    pub fn insert(&mut self, cid: RemoteCid, retire_prior_to: u64) -> Result<Inserted, InsertError>
        requires token { IsSome cid.reset_token }
        requires prior { retire_prior_to ≤ cid.sequence }
        requires fits { cid.sequence < 2 ^ 62 }
        ensures refused { IsErr result ↔ (limit < held (handled cid retire_prior_to self.old).cids) }
        ensures unchanged { OnErr result (self.new ≡ self.old) }
        ensures after { OnOk result (self.new ≡ (handled cid retire_prior_to self.old).cids) }
        ensures retired { IfOk result (λ i. i.retired.items ≡ (handled cid retire_prior_to self.old).retired) }
        ensures has_new_active { IfOk result (λ i. i.has_new_active ≡ (handled cid retire_prior_to self.old).has_new_active) }
        ensures spares { IfOk result (λ i. All (λ sequence. sequence ≢ self.new.active.sequence) i.retired.items) }
        ensures fitting { IfOk result (λ i. All (λ sequence. sequence < 2 ^ 62) i.retired.items) }
        ensures has_token { IfOk result (λ i. IsTrue i.has_new_active → IsSome self.new.active.reset_token) }
        ensures as_long { length self.new.active.id ≡ length self.old.active.id }
    {
        if self.is_late(&cid) {
            return Ok(Inserted::retires(cid.sequence));
        }
        let prior = self.retire_prior_to.max(retire_prior_to);
        if self.is_repeated(cid.sequence) {
            return Ok(self.raise(prior, None));
        }
        if cid.id.len() != self.active.id.len() {
            return Ok(self.raise(prior, Some(cid.sequence)));
        }
        if self.would_exceed(prior) {
            return Err(InsertError::ExceedsLimit);
        }
        Ok(self.add(cid, prior))
    }

    /// The id in use, with its sequence and its token.
    pub fn active(&self) -> &RemoteCid
        ensures value { result.now ≡ self.now.active }
        ensures sound { IsQueue self.now }
    {
        &self.active
    }

    // Whether the id comes when it was to be retired already, and isn't the one in use.
    fn is_late(&self, cid: &RemoteCid) -> bool
        ensures { result ≡ is_late_by cid.now self.now }
    {
        cid.sequence < self.retire_prior_to && cid.sequence != self.active.sequence
    }

    // Whether the id in use has this sequence, or one that waits.
    fn is_repeated(&self, sequence: u64) -> bool
        ensures { result ≡ is_repeated_by sequence self.now }
    {
        sequence == self.active.sequence || has_sequence(&self.waiting, sequence)
    }

    // Whether there would be more than `LIMIT` with one that is added, once all below `prior` are retired.
    fn would_exceed(&self, prior: u64) -> bool
        ensures { (cid : Remote) (retired : List ℕ) → result ≡ nat_lt limit (held (settled (added cid (raised prior self.now)) retired).cids) }
    {
        let kept = count_from(&self.waiting, prior);
        let stays = usize::from(prior <= self.active.sequence);
        kept + 1 + stays > LIMIT
    }

    // All below `prior` are to be retired, and also this sequence, which no id here has.
    fn raise(&mut self, prior: u64, also: Option<u64>) -> Inserted
        requires new { IfSome also (λ sequence. is_repeated_by sequence self.old ≡ false) }
        requires fits { IfSome also (λ sequence. sequence < 2 ^ 62) }
        ensures after { self.new ≡ (settled (raised prior self.old) (gone prior self.old ++ option_to_list also)).cids }
        ensures within { held self.new ≤ limit }
        ensures retired { result.retired.items ≡ (settled (raised prior self.old) (gone prior self.old ++ option_to_list also)).retired }
        ensures has_new_active { result.has_new_active ≡ (settled (raised prior self.old) (gone prior self.old ++ option_to_list also)).has_new_active }
        ensures spares { All (λ sequence. sequence ≢ self.new.active.sequence) result.retired.items }
        ensures fitting { All (λ sequence. sequence < 2 ^ 62) result.retired.items }
        ensures has_token { IsTrue result.has_new_active → IsSome self.new.active.reset_token }
    {
        let mut retired = retire_below(&mut self.waiting, prior);
        self.retire_prior_to = prior;
        if let Some(sequence) = also {
            retired.push(sequence);
        }
        settle(&mut self.active, &mut self.waiting, prior, retired)
    }

    // All below `prior` are to be retired, and the id, which isn't, is added.
    fn add(&mut self, cid: RemoteCid, prior: u64) -> Inserted
        requires token { IsSome cid.reset_token }
        requires kept { prior ≤ cid.sequence }
        requires other { is_repeated_by cid.sequence self.old ≡ false }
        requires as_long { length cid.id ≡ length self.old.active.id }
        requires fits { cid.sequence < 2 ^ 62 }
        requires room { (retired : List ℕ) → held (settled (added cid (raised prior self.old)) retired).cids ≤ limit }
        ensures after { self.new ≡ (settled (added cid (raised prior self.old)) (gone prior self.old)).cids }
        ensures retired { result.retired.items ≡ (settled (added cid (raised prior self.old)) (gone prior self.old)).retired }
        ensures has_new_active { result.has_new_active ≡ (settled (added cid (raised prior self.old)) (gone prior self.old)).has_new_active }
        ensures spares { All (λ sequence. sequence ≢ self.new.active.sequence) result.retired.items }
        ensures fitting { All (λ sequence. sequence < 2 ^ 62) result.retired.items }
        ensures has_token { IsTrue result.has_new_active → IsSome self.new.active.reset_token }
    {
        let retired = retire_below(&mut self.waiting, prior);
        self.retire_prior_to = prior;
        let place = place_of(&self.waiting, cid.sequence);
        self.waiting.insert(place, cid);
        settle(&mut self.active, &mut self.waiting, prior, retired)
    }
}

impl Inserted {
    // This sequence alone is to be retired.
    fn retires(sequence: u64) -> Inserted
        ensures retired { result.retired.items ≡ sequence ∷ [] }
        ensures has_new_active { result.has_new_active ≡ false }
    {
        let mut retired = ArrayVec::new();
        retired.push(sequence);
        Inserted {
            retired,
            has_new_active: false,
        }
    }
}

// Whether one of them has this sequence.
fn has_sequence(cids: &[RemoteCid], sequence: u64) -> bool
    ensures { result ≡ has_sequence_by sequence cids.now }
{
    cids.iter().any(|cid| cid.sequence == sequence)
}

// How many have this sequence or a higher one.
fn count_from(cids: &[RemoteCid], sequence: u64) -> usize
    ensures { result ≡ length (filter (λ cid. nat_le sequence cid.sequence) cids.now) }
{
    cids.iter().filter(|cid| sequence <= cid.sequence).count()
}

// How many of them stand before the place of one with this sequence.
fn place_of(cids: &[RemoteCid], sequence: u64) -> usize
    ensures within { result ≤ length cids.now }
    ensures place { (cid : Remote) → cid.sequence ≡ sequence → insert cids.now result cid ≡ with_cid cid cids.now }
{
    let behind = cids.iter().position(|cid| sequence < cid.sequence);
    behind.unwrap_or(cids.len())
}

// Takes out those below `prior`, and answers their sequences in order.
fn retire_below(waiting: &mut ArrayVec<RemoteCid, LIMIT>, prior: u64) -> ArrayVec<u64, 9>
    ensures kept { waiting.new.items ≡ filter (λ cid. nat_le prior cid.sequence) waiting.old.items }
    ensures retired { result.items ≡ map (λ cid. cid.sequence) (filter (λ cid. nat_lt cid.sequence prior) waiting.old.items) }
    ensures each { array_vec_len waiting.new + array_vec_len result ≡ array_vec_len waiting.old }
{
    let mut retired = ArrayVec::new();
    let cids = waiting.as_slice();
    for cid in cids {
        if cid.sequence < prior {
            retired.push(cid.sequence);
        }
    }
    waiting.retain(|cid| prior <= cid.sequence);
    retired
}

// If the one in use is below `prior`, the first that waits takes its place, and the one that was in use is to be retired too.
fn settle(
    active: &mut RemoteCid,
    waiting: &mut ArrayVec<RemoteCid, LIMIT>,
    prior: u64,
    mut retired: ArrayVec<u64, 9>,
) -> Inserted
    requires { array_vec_len retired < 9 }
    ensures after { record { active = active.new; waiting = waiting.new.items; retire_prior_to = prior } ≡ (settled (record { active = active.old; waiting = waiting.old.items; retire_prior_to = prior }) retired.items).cids }
    ensures retired { result.retired.items ≡ (settled (record { active = active.old; waiting = waiting.old.items; retire_prior_to = prior }) retired.items).retired }
    ensures has_new_active { result.has_new_active ≡ (settled (record { active = active.old; waiting = waiting.old.items; retire_prior_to = prior }) retired.items).has_new_active }
{
    let mut has_new_active = false;
    if active.sequence < prior && !waiting.is_empty() {
        retired.push(active.sequence);
        *active = waiting.remove(0);
        has_new_active = true;
    }
    Inserted {
        retired,
        has_new_active,
    }
}
