ghost use Rattle.std.specs.Prelude.{◌≡◌, ℕ, ◌+◌, ◌-◌, ◌<◌, ◌≤◌, ◌==◌, ◌++◌, [], ◌∷◌, List, length, true, false, min, OnOk, OnErr, IfSome, IsSomeAnd, MatchOption, Some, None, option_map, option_copied};
ghost use Rattle.qh_base.specs.declared.time.Moment.{Moment as AMoment};
ghost use Rattle.std.specs.List.Sorted.{IsStrictlySortedBy};
ghost use Rattle.std.specs.Map.{keys_of};
ghost use Rattle.std.specs.Ordering.{nat_cmp};
ghost use Rattle.qh_recovery.specs.declared.sent_packets.SentPacket.{SentPacket as Packet};
ghost use Rattle.qh_recovery.specs.SentPackets.{IsParted, HasInstead, packet_at, without, bytes_in_flight, frame_count, NoneIs, IsLeast, IsGreatest, IsNext, IsFrom, IsBelow, IsWithin, IsReordered, IsLost, IsLossTime, IsLastSent, overdue_at};

use qh_base::{Memory, Moment, Span};
use std::alloc::Global;
use std::collections::BTreeMap;
use std::marker::Model;

/// What is kept of a packet that is out.
#[derive(Drop)]
pub struct SentPacket<F> {
    /// When it was sent.
    pub time_sent: Moment,
    /// How many bytes its datagram has.
    pub size: u64,
    /// What it bears that is to be sent again if it is lost.
    pub frames: Vec<F>,
}

/// The ack-eliciting packets of a packet number space that are out: sent, and neither acknowledged nor lost (RFC 9002, appendix
/// A.1).
#[derive(Drop)]
pub struct SentPackets<F> {
    packets: BTreeMap<u64, SentPacket<F>>,
    in_flight: u64,
    frames: usize,
}

impl<F> Model for SentPackets<F> {
    ghost use Rattle.std.specs.Prelude.{◌≡◌, ℕ, List};
    ghost use Rattle.qh_recovery.specs.declared.sent_packets.SentPacket.{SentPacket as Packet};
    ghost use Rattle.qh_recovery.specs.SentPackets.{bytes_in_flight, frame_count};

    ghost Value = { List (ℕ × Packet F) };

    ghost view = { λ s. s.packets.entries };

    ghost invariant = { λ s. (s.in_flight ≡ bytes_in_flight s.packets.entries) × (s.frames ≡ frame_count s.packets.entries) };
}

impl<F: Drop> SentPackets<F> {
    /// No packets.
    pub fn new(alloc: Global) -> SentPackets<F>
        ensures { result ≡ [] }
    {
        SentPackets {
            packets: BTreeMap::new(alloc),
            in_flight: 0,
            frames: 0,
        }
    }

    /// How many packets are out.
    pub fn len(&self) -> usize
        ensures { result ≡ length self.now }
    {
        self.packets.len()
    }

    /// Whether no packet is out.
    pub fn is_empty(&self) -> bool
        ensures { result ≡ (length self.now == 0) }
    {
        self.packets.is_empty()
    }

    /// How many bytes are in flight.
    pub fn in_flight(&self) -> u64
        ensures { result ≡ bytes_in_flight self.now }
    {
        self.in_flight
    }

    /// How many frames are kept of all packets that are out.
    pub fn frame_count(&self) -> usize
        ensures { result ≡ frame_count self.now }
    {
        self.frames
    }

    /// The numbers rise in the order in which the packets stand. It does nothing: its contract says so.
    pub fn is_rising(&self)
        ensures { IsStrictlySortedBy nat_cmp (keys_of self.now) }
    {
        let _ = self.packets.len();
    }

    /// The packet with a number.
    pub fn get(&self, number: u64) -> Option<&SentPacket<F>>
        ensures { option_copied result ≡ packet_at self.now number }
    {
        self.packets.get(&number)
    }

    /// The packet with the least number at or above this one.
    pub fn next_from(&self, number: u64) -> Option<(u64, &SentPacket<F>)>
        ensures { MatchOption result (NoneIs (IsFrom number) self.now) (λ e. IsLeast (IsFrom number) self.now e.0 e.1.now) }
    {
        let (found, packet) = self.packets.range(number..).next()?;
        Some((*found, packet))
    }

    /// The packet with the least number.
    pub fn first(&self) -> Option<(u64, &SentPacket<F>)>
        ensures { MatchOption result (self.now ≡ []) (λ e. IsLeast (IsFrom 0) self.now e.0 e.1.now) }
    {
        self.next_from(0)
    }

    /// When the packet with the greatest number was sent.
    pub fn last_sent(&self) -> Option<Moment>
        ensures { MatchOption result (self.now ≡ []) (λ t. IsLastSent self.now t) }
    {
        let (_, packet) = self.packets.last_key_value()?;
        Some(packet.time_sent)
    }

    /// A packet is sent. Its number is greater than all that are out. If the allocator has no memory, or the bytes in flight
    /// or the count of frames would exceed what 64 bits hold, the packet is dropped.
    pub fn insert(&mut self, number: u64, packet: SentPacket<F>) -> Result<(), Memory>
        requires { IsNext number self.old }
        ensures ok { OnOk result (self.new ≡ self.old ++ (number, packet) ∷ []) }
        ensures packets { OnOk result (HasInstead self.old self.new number (Some packet)) }
        ensures err { OnErr result (self.new ≡ self.old) }
    {
        let Some(in_flight) = self.in_flight.checked_add(packet.size) else {
            return Err(Memory);
        };
        let Some(frames) = self.frames.checked_add(packet.frames.len()) else {
            return Err(Memory);
        };
        self.packets.insert(number, packet)?;
        self.in_flight = in_flight;
        self.frames = frames;
        Ok(())
    }

    // Takes the packet with a number.
    fn take(&mut self, number: u64) -> Option<(u64, SentPacket<F>)>
        ensures none { result ≡ None → (packet_at self.old number ≡ None) × (self.new ≡ self.old) }
        ensures some { IfSome result (λ e. (e.0 ≡ number) × (packet_at self.old number ≡ Some e.1) × (self.new ≡ without number self.old)) }
        ensures packets { IfSome result (λ e. HasInstead self.old self.new e.0 None) }
    {
        let packet = self.packets.remove(&number)?;
        self.in_flight -= packet.size;
        self.frames -= packet.frames.len();
        Some((number, packet))
    }

    /// Takes the packet with the least number.
    pub fn take_first(&mut self) -> Option<(u64, SentPacket<F>)>
        ensures first { MatchOption result ((self.old ≡ []) × (self.new ≡ [])) (λ e. self.old ≡ e ∷ self.new) }
        ensures packets { IfSome result (λ e. HasInstead self.old self.new e.0 None) }
    {
        let (number, oldest) = self.packets.pop_first()?;
        self.in_flight -= oldest.size;
        self.frames -= oldest.frames.len();
        Some((number, oldest))
    }

    /// Takes the packet with the least number in a range of an ACK frame (RFC 9000, section 19.3.1).
    pub fn take_acked(&mut self, least: u64, greatest: u64) -> Option<(u64, SentPacket<F>)>
        ensures none { result ≡ None → NoneIs (IsWithin least greatest) self.old × (self.new ≡ self.old) }
        ensures some { IfSome result (λ e. IsLeast (IsWithin least greatest) self.old e.0 e.1 × (self.new ≡ without e.0 self.old)) }
        ensures packets { IfSome result (λ e. HasInstead self.old self.new e.0 None) }
    {
        let (number, _) = self.next_from(least)?;
        if greatest < number {
            return None;
        }
        self.take(number)
    }

    // Whether the packet with a number is out and was sent longer ago than the delay.
    fn is_overdue(&self, number: u64, now: Moment, delay: Span) -> bool
        ensures yes { result ≡ true → IsSomeAnd (packet_at self.now number) (λ q. delay.0 < now.0 - q.time_sent.0) }
        ensures no { result ≡ false → IfSome (packet_at self.now number) (λ q. delay.0 < now.0 - q.time_sent.0 → ⊥) }
    {
        match self.packets.get(&number) {
            Some(packet) => delay < now.since(packet.time_sent),
            None => false,
        }
    }

    // The least number of a packet that is lost. Besides the least of all only two may be: the others before the largest
    // that is acknowledged are at least 3 numbers less.
    fn first_lost(&self, largest_acked: u64, now: Moment, delay: Span) -> Option<u64>
        ensures none { result ≡ None → NoneIs (IsLost largest_acked now.0 delay.0) self.now }
        ensures some { IfSome result (λ n. IsSomeAnd (packet_at self.now n) (IsLeast (IsLost largest_acked now.0 delay.0) self.now n)) }
    {
        let near = largest_acked.saturating_sub(2);
        let (first, _) = self.first()?;
        if first < near {
            return Some(first);
        }
        for number in near..largest_acked {
            if self.is_overdue(number, now, delay) {
                return Some(number);
            }
        }
        None
    }

    /// Takes the packet with the least number that is lost: one at least 3 numbers greater is acknowledged, or a greater one is
    /// and it was sent longer ago than the delay (RFC 9002, section 6.1).
    pub fn take_lost(
        &mut self,
        largest_acked: u64,
        now: Moment,
        delay: Span,
    ) -> Option<(u64, SentPacket<F>)>
        ensures none { result ≡ None → NoneIs (IsLost largest_acked now.0 delay.0) self.old × (self.new ≡ self.old) }
        ensures near { result ≡ None → NoneIs (IsReordered largest_acked) self.new }
        ensures some { IfSome result (λ e. IsLeast (IsLost largest_acked now.0 delay.0) self.old e.0 e.1 × (self.new ≡ without e.0 self.old)) }
        ensures packets { IfSome result (λ e. HasInstead self.old self.new e.0 None) }
    {
        let number = self.first_lost(largest_acked, now, delay)?;
        self.take(number)
    }

    // The first moment at which the packet with a number was sent longer ago than the delay.
    fn overdue_at(&self, number: u64, delay: Span) -> Option<Moment>
        ensures { option_map (λ t. t.0) result ≡ option_map (overdue_at delay.0) (packet_at self.now number) }
    {
        let packet = self.packets.get(&number)?;
        Some(packet.time_sent.plus(delay).plus(Span(1)))
    }

    /// The earliest moment at which a packet that was sent before one that is acknowledged was sent longer ago than the delay,
    /// or the last moment that there is. None of them is lost by its number: so it is once `take_lost` answered None.
    pub fn loss_time(&self, largest_acked: u64, delay: Span) -> Option<Moment>
        requires { NoneIs (IsReordered largest_acked) self.now }
        ensures { MatchOption result (NoneIs (IsBelow largest_acked) self.now) (λ t. IsLossTime self.now largest_acked delay.0 t.0) }
    {
        let mut earliest = None;
        for number in largest_acked.saturating_sub(2)..largest_acked {
            earliest = earlier(earliest, self.overdue_at(number, delay));
        }
        earliest
    }
}

// The earlier of two moments that may be.
fn earlier(one: Option<Moment>, other: Option<Moment>) -> Option<Moment>
    ensures none { one ≡ None → result ≡ other }
    ensures other { other ≡ None → result ≡ one }
    ensures both { (a b : AMoment) → one ≡ Some a → other ≡ Some b → option_map (λ t. t.0) result ≡ Some (min a.0 b.0) }
{
    let Some(first) = one else {
        return other;
    };
    let Some(second) = other else {
        return one;
    };
    Some(first.min(second))
}

/// The packet with a number stands between those that are left without it, so that the frames of all are its own and theirs. It
/// does nothing: its contract says so.
pub fn packet_is_among<F>()
    ensures { (packets : List (ℕ × Packet F)) (number : ℕ) (packet : Packet F) → packet_at packets number ≡ Some packet → IsParted packets number packet }
{}
