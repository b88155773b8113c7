//! The packets of a datagram.

mod body;
mod frame;
mod header;
mod tag;
mod value;

ghost use Rattle.std.specs.Prelude.{◌≡◌, ◌++◌, IfOk, IfSome, IfNone, OnOk};
ghost use Rattle.qh_spec.specs.Datagram.{Packet as APacket, HasPacket, IsOneRttPacket};
ghost use Rattle.qh_spec.specs.Lists.{In};
ghost use Rattle.qh_plain.specs.Packets.{listed};

pub use body::Packet;
pub use frame::Frame;
use header::{InitialForm, short_header};
use qh_base::{Memory, Space};
use std::alloc::Global;
pub use value::{FieldValue, Numbers};

/// The packets of a datagram at an end whose ids have this length.
pub fn packets(alloc: Global, id_length: usize, datagram: &[u8]) -> Result<Vec<Packet>, Memory>
    ensures found { IfOk result (λ ps. (p : APacket) → In p ps.items → HasPacket id_length p datagram.now) }
    ensures all { IfOk result (λ ps. (p : APacket) → HasPacket id_length p datagram.now → In p ps.items) }
{
    let mut packets = Vec::new(alloc);
    let mut rest = datagram;
    while let Some(form) = InitialForm::read(rest) {
        let packet = Packet::read(alloc, Space::Initial, form.first, form.body)?;
        push_found(&mut packets, packet)?;
        rest = form.rest;
    }
    let packet = one_rtt(alloc, id_length, rest)?;
    push_found(&mut packets, packet)?;
    Ok(packets)
}

/// Keeps the packet, where one was found.
fn push_found(packets: &mut Vec<Packet>, found: Option<Packet>) -> Result<(), Memory>
    ensures { OnOk result (packets.new.items ≡ packets.old.items ++ listed found) }
{
    if let Some(packet) = found {
        packets.push(packet)?;
    }
    Ok(())
}

/// The 1-RTT packet that the bytes are.
fn one_rtt(alloc: Global, id_length: usize, bytes: &[u8]) -> Result<Option<Packet>, Memory>
    ensures found { IfOk result (λ r. IfSome r (λ p. IsOneRttPacket id_length bytes.now p)) }
    ensures none { IfOk result (λ r. IfNone r ((p : APacket) → IsOneRttPacket id_length bytes.now p → ⊥)) }
{
    let Some((first, body)) = short_header(id_length, bytes) else {
        return Ok(None);
    };
    let Some(packet) = Packet::read(alloc, Space::Data, first, body)? else {
        return Ok(None);
    };
    Ok(Some(packet))
}
