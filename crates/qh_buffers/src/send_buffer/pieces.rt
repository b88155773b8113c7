ghost use Rattle.std.specs.Prelude.{◌≡◌, ◌<◌, ◌≤◌, length, take, map, OnOk, OnErr};
ghost use Rattle.std.specs.List.{AllWithin, list_any};
ghost use Rattle.std.specs.List.Sorted.{IsNonDecreasingBy};
ghost use Rattle.qh_buffers.specs.SendBuffer.{pieces_end};
ghost use Rattle.qh_buffers.specs.SendState.{piece_end, first_queued, mark_between as between, acked_to, unacked_pieces, sent_again, is_owed};

use super::{Mark, Piece};
use qh_base::Memory;
use std::collections::VecDeque;

/// The place of the first piece that ends behind an offset.
pub(super) fn place_of(pieces: &VecDeque<Piece>, offset: u64) -> usize
    requires { IsNonDecreasingBy piece_end pieces.now.items }
    ensures bound { result ≤ length pieces.now.items }
    ensures before { AllWithin (λ p. piece_end p ≤ offset) pieces.now.items 0 result }
    ensures behind { AllWithin (λ p. offset < piece_end p) pieces.now.items result (length pieces.now.items) }
{
    pieces.partition_point(|piece| piece.end <= offset)
}

/// The offset at which the piece at a place begins, or behind the last.
pub(super) fn begin_of(start: u64, pieces: &VecDeque<Piece>, place: usize) -> u64
    requires { place ≤ length pieces.now.items }
    ensures { result ≡ pieces_end start (take place pieces.now.items) }
{
    if place == 0 {
        return start;
    }
    pieces[place - 1].end
}

/// The place of the first piece that is to be sent again, where none is before a place.
pub(super) fn next_queued(pieces: &VecDeque<Piece>, from: usize) -> usize
    requires { from ≤ first_queued pieces.now.items }
    ensures { result ≡ first_queued pieces.now.items }
{
    for place in from..pieces.len() {
        if pieces[place].mark == Mark::Queued {
            return place;
        }
    }
    pieces.len()
}

/// Marks the pieces between two offsets, but those that are acknowledged. Answers the place of the first of them.
pub(super) fn mark_between(pieces: &mut VecDeque<Piece>, start: u64, end: u64, mark: Mark) -> usize
    requires sorted { IsNonDecreasingBy piece_end pieces.old.items }
    requires order { start ≤ end }
    ensures marks { pieces.new.items ≡ map (between mark start end) pieces.old.items }
    ensures first { AllWithin (λ p. piece_end p ≤ start) pieces.old.items 0 result }
{
    let first = place_of(pieces, start);
    for place in first..place_of(pieces, end) {
        let piece = &mut pieces[place];
        piece.mark = piece.mark.marked(mark);
    }
    first
}

/// Marks the piece at a place as sent, up to an offset. The rest of it stays queued.
pub(super) fn send_again(pieces: &mut VecDeque<Piece>, place: usize, end: u64) -> Result<(), Memory>
    requires { place < length pieces.old.items }
    ensures ok { OnOk result (pieces.new.items ≡ sent_again end place pieces.old.items) }
    ensures err { OnErr result (pieces.new.items ≡ pieces.old.items) }
{
    if end < pieces[place].end {
        pieces.insert(
            place,
            Piece {
                end,
                mark: Mark::Sent,
            },
        )?;
        return Ok(());
    }
    pieces[place].mark = Mark::Sent;
    Ok(())
}

/// Lets go of the acknowledged pieces in front. Answers the offset behind them.
pub(super) fn let_go(pieces: &mut VecDeque<Piece>, start: u64) -> u64
    ensures start { result ≡ acked_to start pieces.old.items }
    ensures pieces { pieces.new.items ≡ unacked_pieces pieces.old.items }
{
    let mut start = start;
    while let Some(piece) = pieces.front() {
        if piece.mark != Mark::Acked {
            return start;
        }
        start = piece.end;
        pieces.pop_front();
    }
    start
}

/// Whether some piece between two offsets isn't acknowledged.
pub(super) fn owes(pieces: &VecDeque<Piece>, start: u64, end: u64) -> bool
    requires sorted { IsNonDecreasingBy piece_end pieces.now.items }
    requires order { start ≤ end }
    ensures { result ≡ list_any (is_owed start end) pieces.now.items }
{
    for place in place_of(pieces, start)..place_of(pieces, end) {
        if pieces[place].mark != Mark::Acked {
            return true;
        }
    }
    false
}
