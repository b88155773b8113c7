//! What datagrams carry of a stream.

mod run;

ghost use Rattle.std.specs.Prelude.{◌≡◌, ◌++◌, ℕ, List, IfOk, OnOk};
ghost use Rattle.std.specs.List.{flat_map};
ghost use Rattle.qh_spec.specs.Carried.{HasRun, Carries, CarriesEnd};
ghost use Rattle.qh_spec.specs.Lists.{In};
ghost use Rattle.qh_spec.specs.QuicFrame.{StreamFrame};
ghost use Rattle.qh_plain.specs.Carried.{runs_in, runs_of, bytes_in, ends_in, placed, from_sender, listed};

use crate::packets::{Frame, Packet, packets};
use bytes::Bytes;
use qh_base::{Memory, Side, Space};
use run::Run;
use std::alloc::Global;

/// What datagrams carry of one side's part of a stream, in any order, and as often as they carry it.
#[derive(Drop)]
pub struct CarriedStream {
    /// Bytes with their offsets.
    pub bytes: Vec<(u64, u8)>,
    /// The offsets at which the stream is said to end.
    pub ends: Vec<u64>,
}

/// The bytes, with their offsets, and the ends that the datagrams carry of the sender's part of a stream.
pub fn carried(
    alloc: Global,
    id_length: usize,
    datagrams: &[Bytes],
    sender: Side,
    stream: u64,
) -> Result<CarriedStream, Memory>
    ensures bytes_found { IfOk result (λ c. (offset byte : ℕ) → In (offset, byte) c.bytes.items → Carries id_length datagrams.now sender stream offset byte) }
    ensures bytes_all { IfOk result (λ c. (offset byte : ℕ) → Carries id_length datagrams.now sender stream offset byte → In (offset, byte) c.bytes.items) }
    ensures ends_found { IfOk result (λ c. (end : ℕ) → In end c.ends.items → CarriesEnd id_length datagrams.now sender stream end) }
    ensures ends_all { IfOk result (λ c. (end : ℕ) → CarriesEnd id_length datagrams.now sender stream end → In end c.ends.items) }
{
    let runs = all_runs(alloc, id_length, datagrams, sender)?;
    let bytes = run_bytes(alloc, &runs, stream)?;
    let ends = run_ends(alloc, &runs, stream)?;
    Ok(CarriedStream { bytes, ends })
}

/// The STREAM frames in the sender's 1-RTT packets.
fn all_runs(
    alloc: Global,
    id_length: usize,
    datagrams: &[Bytes],
    sender: Side,
) -> Result<Vec<Run>, Memory>
    ensures found { IfOk result (λ runs. (run : StreamFrame) → In run runs.items → HasRun id_length datagrams.now sender run) }
    ensures all { IfOk result (λ runs. (run : StreamFrame) → HasRun id_length datagrams.now sender run → In run runs.items) }
{
    let mut runs = Vec::new(alloc);
    for datagram in datagrams {
        let packets = packets(alloc, id_length, datagram.as_slice())?;
        push_packets(alloc, &mut runs, &packets, sender)?;
    }
    Ok(runs)
}

/// Appends the STREAM frames in the sender's 1-RTT packets.
fn push_packets(
    alloc: Global,
    runs: &mut Vec<Run>,
    packets: &[Packet],
    sender: Side,
) -> Result<(), Memory>
    ensures { OnOk result (runs.new.items ≡ runs.old.items ++ flat_map (runs_of sender) packets.now) }
{
    for packet in packets {
        push_packet(alloc, runs, packet, sender)?;
    }
    Ok(())
}

/// Appends the STREAM frames of a packet, if it is a 1-RTT packet of the sender.
fn push_packet(
    alloc: Global,
    runs: &mut Vec<Run>,
    packet: &Packet,
    sender: Side,
) -> Result<(), Memory>
    ensures { OnOk result (runs.new.items ≡ runs.old.items ++ runs_of sender packet.now) }
{
    if is_from(packet, sender) {
        push_frames(alloc, runs, packet.frames())
    } else {
        Ok(())
    }
}

/// Whether it is a 1-RTT packet of the sender.
fn is_from(packet: &Packet, sender: Side) -> bool
    ensures { result ≡ from_sender sender packet.now }
{
    matches!(
        (packet.space(), packet.sender(), sender),
        (Space::Data, Side::Client, Side::Client) | (Space::Data, Side::Server, Side::Server)
    )
}

/// Appends the STREAM frames.
fn push_frames(alloc: Global, runs: &mut Vec<Run>, frames: &[Frame]) -> Result<(), Memory>
    ensures { OnOk result (runs.new.items ≡ runs.old.items ++ flat_map runs_in frames.now) }
{
    for frame in frames {
        push_frame(alloc, runs, frame)?;
    }
    Ok(())
}

/// Appends the STREAM frame that a frame is, if it is one.
fn push_frame(alloc: Global, runs: &mut Vec<Run>, frame: &Frame) -> Result<(), Memory>
    ensures { OnOk result (runs.new.items ≡ runs.old.items ++ runs_in frame.now) }
{
    let found = Run::of(alloc, frame)?;
    push_found(runs, found)
}

/// Keeps the run, where one was found.
fn push_found(runs: &mut Vec<Run>, found: Option<Run>) -> Result<(), Memory>
    ensures { OnOk result (runs.new.items ≡ runs.old.items ++ listed found) }
{
    if let Some(run) = found {
        runs.push(run)?;
    }
    Ok(())
}

/// The bytes that the stream's runs have, with their offsets.
fn run_bytes(alloc: Global, runs: &[Run], stream: u64) -> Result<Vec<(u64, u8)>, Memory>
    ensures { IfOk result (λ bytes. bytes.items ≡ flat_map (bytes_in stream) runs.now) }
{
    let mut bytes = Vec::new(alloc);
    for run in runs {
        if run.id() == stream {
            push_bytes(&mut bytes, run)?;
        }
    }
    Ok(bytes)
}

/// Appends the bytes of a run, with their offsets.
fn push_bytes(bytes: &mut Vec<(u64, u8)>, run: &Run) -> Result<(), Memory>
    ensures { OnOk result (bytes.new.items ≡ bytes.old.items ++ placed run.now.offset run.now.payload) }
{
    let mut offset = run.offset();
    for byte in run.payload() {
        bytes.push((offset, *byte))?;
        offset += 1;
    }
    Ok(())
}

/// The ends that the stream's runs have.
fn run_ends(alloc: Global, runs: &[Run], stream: u64) -> Result<Vec<u64>, Memory>
    ensures { IfOk result (λ ends. ends.items ≡ flat_map (ends_in stream) runs.now) }
{
    let mut ends = Vec::new(alloc);
    for run in runs {
        if run.id() == stream && run.fin() {
            ends.push(run.offset() + run.payload().len() as u64)?;
        }
    }
    Ok(ends)
}
