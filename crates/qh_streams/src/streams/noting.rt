ghost use Rattle.std.specs.Prelude.{◌≡◌, ◌+◌, ℕ, List, [], ◌∷◌, ◌++◌, length, None, IsOk, OnOk, OnErr};
ghost use Rattle.qh_streams.specs.Items.{arrival, end_items, items_of, first_items, logged, confirmed_items, AreConfirmed, HasRoom, Logs};
ghost use Rattle.qh_streams.specs.Streams.{IsOut, IsAckedFrame, AreAllOut, AreAcked, KeepsOut};
ghost use Rattle.qh_streams.specs.declared.frames.StreamFrame.TheVariants.{Stream};
ghost use Rattle.qh_streams.specs.declared.items.Item.{Item as AnItem};

use crate::items::put_reserved;
use crate::{Item, ItemLog, PeerLimits, SentFrame, StreamFrame, Streams};
use bytes::Bytes;
use qh_base::{Dir, Memory, StreamId, VarInt};
use qh_halves::MAX_STREAMS;

impl Streams {
    /// Appends to a log what a frame brings. It looks for no fault: if `received` refuses the frame, the items are to go again. For
    /// want of memory the log stays as it was; one that is off takes none.
    pub fn note(&self, frame: &StreamFrame, log: &mut ItemLog) -> Result<(), Memory>
        ensures free { log.old ≡ None → IsOk result }
        ensures ok { OnOk result (log.new ≡ logged log.old (items_of self.now frame.now)) }
        ensures err { OnErr result (log.new ≡ log.old) }
    {
        if !log.is_on() {
            return Ok(());
        }
        let before = log.len();
        let noted = self.note_each(frame, log);
        if noted.is_err() {
            log.truncate(before);
        }
        noted
    }

    // The same; for want of memory some items may be appended.
    fn note_each(&self, frame: &StreamFrame, log: &mut ItemLog) -> Result<(), Memory>
        ensures ok { OnOk result (log.new ≡ logged log.old (items_of self.now frame.now)) }
        ensures err { OnErr result ((more : List AnItem) × (log.new ≡ logged log.old more)) }
    {
        match frame {
            StreamFrame::Stream {
                id,
                offset,
                payload,
                fin,
            } => self.note_piece(*id, *offset, payload, *fin, log),
            StreamFrame::Reset { id, code, size } => {
                self.note_for(
                    *id,
                    Item::Reset {
                        id: *id,
                        code: *code,
                        size: *size,
                    },
                    log,
                )
            }
            StreamFrame::Stop { id, code } => {
                self.note_for(
                    *id,
                    Item::Stop {
                        id: *id,
                        code: *code,
                    },
                    log,
                )
            }
            StreamFrame::MaxData(limit) => log.push(Item::Credit(*limit)),
            StreamFrame::MaxStreamData { id, max } => {
                self.note_for(
                    *id,
                    Item::StreamCredit {
                        id: *id,
                        limit: *max,
                    },
                    log,
                )
            }
            StreamFrame::MaxStreams { dir, count } => log.push(Item::Count {
                dir: *dir,
                count: count.into_inner(),
            }),
        }
    }

    // Appends a run of bytes and the end of a stream, if it came, behind the stream's arrival if it is new.
    fn note_piece(
        &self,
        id: StreamId,
        offset: VarInt,
        payload: &Bytes,
        fin: bool,
        log: &mut ItemLog,
    ) -> Result<(), Memory>
        ensures ok { OnOk result (log.new ≡ logged log.old (items_of self.now (Stream id offset payload.now fin))) }
        ensures err { OnErr result ((more : List AnItem) × (log.new ≡ logged log.old more)) }
    {
        let bytes = payload.clone()?;
        let size = offset.into_inner() + payload.len() as u64;
        self.note_arrival(id, log)?;
        log.push(Item::Run { id, offset, bytes })?;
        note_end(id, size, fin, log)
    }

    // Appends an item of a stream, behind the stream's arrival if it is new.
    fn note_for(&self, id: StreamId, item: Item, log: &mut ItemLog) -> Result<(), Memory>
        ensures ok { OnOk result (log.new ≡ logged log.old (arrival self.now id ++ (item ∷ []))) }
        ensures err { OnErr result ((more : List AnItem) × (log.new ≡ logged log.old more)) }
    {
        self.note_arrival(id, log)?;
        log.push(item)
    }

    // Appends the arrival of a stream, if it is new.
    fn note_arrival(&self, id: StreamId, log: &mut ItemLog) -> Result<(), Memory>
        ensures ok { OnOk result (log.new ≡ logged log.old (arrival self.now id)) }
        ensures err { OnErr result (log.new ≡ log.old) }
    {
        if self.was_opened(id) {
            return Ok(());
        }
        let credit = self.first_limit(id);
        log.push(Item::Arrived { id, credit })
    }

    /// Appends to a log the peer's first limits, as `set_peer` takes them. For want of memory the log stays as it was.
    pub fn note_peer(peer: PeerLimits, log: &mut ItemLog) -> Result<(), Memory>
        ensures free { log.old ≡ None → IsOk result }
        ensures ok { OnOk result (log.new ≡ logged log.old (first_items peer)) }
        ensures err { OnErr result (log.new ≡ log.old) }
    {
        if !log.is_on() {
            return Ok(());
        }
        let before = log.len();
        let noted = note_limits(peer, log);
        if noted.is_err() {
            log.truncate(before);
        }
        noted
    }

    /// Frames are acknowledged, as by `acked`, and what that confirms is appended to the items that a log lent out, with room for
    /// one of each frame.
    pub fn acked_all(&mut self, frames: Vec<SentFrame>, log: &mut Option<Vec<Item>>)
        requires out { AreAllOut self.old frames.items }
        requires room { HasRoom log.old (length frames.items) }
        ensures acked { AreAcked self.old self.new frames.items }
        ensures confirmed { (items : List AnItem) × AreConfirmed self.old self.new frames.items items × Logs log.old log.new items }
        ensures room { (n : ℕ) → HasRoom log.old (length frames.items + n) → HasRoom log.new n }
        ensures keeps_out { KeepsOut self.old self.new }
    {
        for frame in frames {
            self.acked_into(frame, log);
        }
    }

    // A frame is acknowledged, and what that confirms is appended.
    fn acked_into(&mut self, frame: SentFrame, log: &mut Option<Vec<Item>>)
        requires out { IsOut self.old frame }
        requires room { HasRoom log.old 1 }
        ensures acked { IsAckedFrame self.old self.new frame }
        ensures confirmed { Logs log.old log.new (confirmed_items self.old self.new frame) }
        ensures room { (n : ℕ) → HasRoom log.old (n + 1) → HasRoom log.new n }
        ensures keeps_out { KeepsOut self.old self.new }
    {
        if log.is_none() {
            self.acked(frame);
            return;
        }
        self.acked_and_confirmed(frame, log);
    }

    // The same, whether there is a log or not. It stands apart so that `acked_into` hands a frame on as it is if there is none.
    fn acked_and_confirmed(&mut self, frame: SentFrame, log: &mut Option<Vec<Item>>)
        requires out { IsOut self.old frame }
        requires room { HasRoom log.old 1 }
        ensures acked { IsAckedFrame self.old self.new frame }
        ensures confirmed { Logs log.old log.new (confirmed_items self.old self.new frame) }
        ensures room { (n : ℕ) → HasRoom log.old (n + 1) → HasRoom log.new n }
        ensures keeps_out { KeepsOut self.old self.new }
    {
        match frame {
            SentFrame::Stream { id, piece } => {
                let taken = self.send.taken_to(id.0);
                self.acked(SentFrame::Stream { id, piece });
                if let Some(all) = taken {
                    let to = self.send.confirmed_to(id.0).unwrap_or(all);
                    let has_end = self.send.is_end_acked(id.0);
                    put_reserved(log, Item::Confirmed { id, to, has_end });
                }
            }
            SentFrame::ResetStream { id, reset } => {
                let was_there = self.send.contains(id.0);
                self.acked(SentFrame::ResetStream { id, reset });
                if was_there && !self.send.contains(id.0) {
                    put_reserved(log, Item::ResetConfirmed { id });
                }
            }
            other => self.acked(other),
        }
    }
}

// Appends the end of a stream, if it came.
fn note_end(id: StreamId, size: u64, fin: bool, log: &mut ItemLog) -> Result<(), Memory>
    ensures ok { OnOk result (log.new ≡ logged log.old (end_items fin id size)) }
    ensures err { OnErr result (log.new ≡ log.old) }
{
    if !fin {
        return Ok(());
    }
    log.push(Item::End { id, size })
}

// Appends the peer's first limits; for want of memory some of the items may be appended.
fn note_limits(peer: PeerLimits, log: &mut ItemLog) -> Result<(), Memory>
    ensures ok { OnOk result (log.new ≡ logged log.old (first_items peer)) }
    ensures err { OnErr result ((more : List AnItem) × (log.new ≡ logged log.old more)) }
{
    log.push(Item::FirstCredits {
        bidi: peer.bidi_remote,
        uni: peer.uni,
    })?;
    log.push(Item::Credit(peer.max_data))?;
    log.push(Item::Count {
        dir: Dir::Bi,
        count: peer.max_bidi.min(MAX_STREAMS),
    })?;
    log.push(Item::Count {
        dir: Dir::Uni,
        count: peer.max_uni.min(MAX_STREAMS),
    })
}
