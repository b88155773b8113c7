//! Both ends of a handshake, and the datagrams between them.
use crate::end::End;
use crate::packets::tell_opened;
use crate::say::{MILLISECOND, id, put_named, side};
use bytes::Bytes;
use qh_base::{ConnectionId, Moment, Side};
use qh_packet::put_initial;
use row_text::{RowFault, Words, put_text};
use std::alloc::Global;
use std::mem;

// Frames that are made by hand have fewer bytes.
const END: usize = 16_000;

/// Both ends, the moment, and the datagrams so far.
#[derive(Drop)]
pub(crate) struct Ends {
    client: End,
    server: End,
    now: Moment,
    datagrams: Vec<Bytes>,
}

impl Ends {
    /// A client that asks for this name, and its server.
    pub(crate) fn new(alloc: Global, name: &[u8]) -> Result<Ends, RowFault> {
        Ok(Ends {
            client: End::client(alloc, name)?,
            server: End::server(alloc),
            now: Moment(0),
            datagrams: Vec::new(alloc),
        })
    }

    fn end(&mut self, side: Side) -> &mut End {
        match side {
            Side::Client => &mut self.client,
            Side::Server => &mut self.server,
        }
    }

    /// Answers a row of the ends, if it is one. Whether it is.
    pub(crate) fn answer(
        &mut self,
        alloc: Global,
        word: &str,
        words: &mut Words<'_>,
        out: &mut Vec<u8>,
    ) -> Result<bool, RowFault> {
        Ok(
            self.go(alloc, word, words, out)?
                || self.come(alloc, word, words, out)?
                || self.set(alloc, word, words, out)?,
        )
    }

    // The rows by which datagrams are made.
    fn go(
        &mut self,
        alloc: Global,
        word: &str,
        words: &mut Words<'_>,
        out: &mut Vec<u8>,
    ) -> Result<bool, RowFault> {
        let answered = match word {
            "send" => self.send(alloc, false, words, out),
            "close" => self.send(alloc, true, words, out),
            "forge" => self.forge(alloc, words, out),
            _ => return Ok(false),
        };
        answered?;
        Ok(true)
    }

    // The rows by which datagrams come, and those that ask.
    fn come(
        &mut self,
        alloc: Global,
        word: &str,
        words: &mut Words<'_>,
        out: &mut Vec<u8>,
    ) -> Result<bool, RowFault> {
        let answered = match word {
            "give" => self.give(alloc, words, out),
            "hand" => self.hand(alloc, words, out),
            "brings" => self.put_brings(alloc, words, out),
            "when" => self.put_due(words, out),
            "show" => self.put_state(words, out),
            "stats" => self.put_stats(words, out),
            _ => return Ok(false),
        };
        answered?;
        Ok(true)
    }

    // The rows that change something else of the ends.
    fn set(
        &mut self,
        alloc: Global,
        word: &str,
        words: &mut Words<'_>,
        out: &mut Vec<u8>,
    ) -> Result<bool, RowFault> {
        match word {
            "begin" => self.begin(alloc, words)?,
            "origin" => self.set_origin(alloc, words)?,
            "bear" => self.bear(alloc, words)?,
            "discard" => self.discard(words)?,
            "time" => self.pass(words)?,
            _ => return Ok(false),
        }
        put_text(out, "ok")?;
        Ok(true)
    }

    // NAME: fresh ends.
    fn begin(&mut self, alloc: Global, words: &mut Words<'_>) -> Result<(), RowFault> {
        let name = words.bytes(alloc)?;
        let ends = Ends::new(alloc, &name)?;
        drop(mem::replace(self, ends));
        Ok(())
    }

    // RETRY validated|unknown
    fn set_origin(&mut self, alloc: Global, words: &mut Words<'_>) -> Result<(), RowFault> {
        let retry_id = id(alloc, words)?;
        let is_validated = words.next() == "validated";
        self.server.set_origin(retry_id, is_validated);
        Ok(())
    }

    fn bear(&mut self, alloc: Global, words: &mut Words<'_>) -> Result<(), RowFault> {
        let token = Bytes::from_vec(words.bytes(alloc)?)?;
        self.client.bear(token)
    }

    fn discard(&mut self, words: &mut Words<'_>) -> Result<(), RowFault> {
        let side = side(words)?;
        self.end(side).discard();
        Ok(())
    }

    // Time goes on: what is due by now is done.
    fn pass(&mut self, words: &mut Words<'_>) -> Result<(), RowFault> {
        let now = words.number()?;
        self.now = Moment(now.saturating_mul(MILLISECOND));
        self.client.pass(self.now);
        self.server.pass(self.now);
        Ok(())
    }

    // SIDE, and where it closes a code
    fn send(
        &mut self,
        alloc: Global,
        is_close: bool,
        words: &mut Words<'_>,
        out: &mut Vec<u8>,
    ) -> Result<(), RowFault> {
        let side = side(words)?;
        let code = if is_close {
            Some(words.number()?)
        } else {
            None
        };
        let now = self.now;
        let mut payload = Vec::new(alloc);
        if self.end(side).send(alloc, now, code, &mut payload)? {
            self.keep(side, payload, out)
        } else {
            Ok(put_text(out, "nothing")?)
        }
    }

    // SENDER SOURCE NUMBER FRAMES
    fn forge(
        &mut self,
        alloc: Global,
        words: &mut Words<'_>,
        out: &mut Vec<u8>,
    ) -> Result<(), RowFault> {
        let side = side(words)?;
        let source = id(alloc, words)?;
        let number = words.number()?;
        let frames = words.bytes(alloc)?;
        let mut payload = Vec::new(alloc);
        put_forged(&mut payload, self.end(side), source, number, &frames)?;
        self.keep(side, payload, out)
    }

    // Keeps a datagram, and tells its number, how many bytes it has, and its first packet.
    fn keep(&mut self, from: Side, payload: Vec<u8>, out: &mut Vec<u8>) -> Result<(), RowFault> {
        put_named(out, "", self.datagrams.len() as u64)?;
        put_named(out, ": ", payload.len() as u64)?;
        put_text(out, " ")?;
        tell_opened(out, self.end(from).session(), from, 0, &payload)?;
        self.datagrams.push(Bytes::from_vec(payload)?)?;
        Ok(())
    }

    // SIDE DATAGRAM: one of the datagrams comes.
    fn give(
        &mut self,
        alloc: Global,
        words: &mut Words<'_>,
        out: &mut Vec<u8>,
    ) -> Result<(), RowFault> {
        let side = side(words)?;
        let number = words.number()?;
        let Some(datagram) = self.datagrams.get(number as usize) else {
            return Err(RowFault::Form);
        };
        let payload = Bytes::copy_from_slice(alloc, datagram)?;
        let now = self.now;
        self.end(side).hand_in(alloc, now, &payload, out)
    }

    // SIDE BYTES: a datagram comes.
    fn hand(
        &mut self,
        alloc: Global,
        words: &mut Words<'_>,
        out: &mut Vec<u8>,
    ) -> Result<(), RowFault> {
        let side = side(words)?;
        let payload = words.bytes(alloc)?;
        let now = self.now;
        self.end(side).hand_in(alloc, now, &payload, out)
    }

    fn put_due(&mut self, words: &mut Words<'_>, out: &mut Vec<u8>) -> Result<(), RowFault> {
        let side = side(words)?;
        match self.end(side).due() {
            Some(moment) => put_named(out, "", moment.0 / MILLISECOND)?,
            None => put_text(out, "never")?,
        }
        Ok(())
    }

    fn put_state(&mut self, words: &mut Words<'_>, out: &mut Vec<u8>) -> Result<(), RowFault> {
        let side = side(words)?;
        self.end(side).put_state(out)?;
        Ok(())
    }

    fn put_stats(&mut self, words: &mut Words<'_>, out: &mut Vec<u8>) -> Result<(), RowFault> {
        let side = side(words)?;
        self.end(side).put_stats(out)?;
        Ok(())
    }

    // SIDE BYTES: whether a datagram of these bytes would bring the peer's close.
    fn put_brings(
        &mut self,
        alloc: Global,
        words: &mut Words<'_>,
        out: &mut Vec<u8>,
    ) -> Result<(), RowFault> {
        let side = side(words)?;
        let payload = words.bytes(alloc)?;
        let brings_close = self.end(side).brings_close(&payload);
        Ok(put_text(out, if brings_close { "close" } else { "no" })?)
    }
}

// Appends an Initial packet with these frames and the tag of an end.
fn put_forged(
    payload: &mut Vec<u8>,
    end: &End,
    source: ConnectionId,
    number: u64,
    frames: &[u8],
) -> Result<(), RowFault> {
    if frames.len() >= END {
        return Err(RowFault::Form);
    }
    let tag = end.tag(number);
    put_initial(
        payload,
        &end.peer_id(),
        &source,
        &[],
        number,
        frames,
        0,
        &tag,
    )?;
    Ok(())
}
