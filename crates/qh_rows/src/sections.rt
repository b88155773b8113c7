//! Field sections of seeded bytes, read by the codec and by the plain program.

use qh_base::Memory;
use qh_plain::sections::{FieldLine, section};
use qh_qpack::{DecoderError, HeaderField, decode_stateless};
use std::alloc::Global;
use std::test::Fail;

// Numbers that look random, by a seed.
#[derive(Drop)]
struct Seeded(u64);

impl Seeded {
    fn next(&mut self) -> u8 {
        self.0 = self
            .0
            .wrapping_mul(6_364_136_223_846_793_005)
            .wrapping_add(1_442_695_040_888_963_407);
        (self.0 >> 56) as u8
    }
}

// A section of short lines, whose bytes are mostly those of a line that can be read.
fn seeded_section(alloc: Global, seed: u64) -> Result<Vec<u8>, Memory> {
    let mut seeded = Seeded(seed);
    let mut bytes = Vec::new(alloc);
    bytes.extend_from_slice(&[0, 0])?;
    for _line in 0..seeded.next() % 5 {
        put_line(&mut seeded, &mut bytes)?;
    }
    Ok(bytes)
}

fn put_line(seeded: &mut Seeded, bytes: &mut Vec<u8>) -> Result<(), Memory> {
    match seeded.next() % 8 {
        0 => bytes.push(seeded.next())?,
        1 | 2 | 3 => bytes.push(192 | seeded.next() % 64)?,
        4 | 5 => {
            bytes.push(80 | seeded.next() % 48)?;
            put_text(seeded, bytes)?;
        }
        _ => {
            let count = seeded.next() % 7;
            bytes.push(32 | count)?;
            for _byte in 0..count {
                bytes.push(97 + seeded.next() % 26)?;
            }
            put_text(seeded, bytes)?;
        }
    }
    Ok(())
}

fn put_text(seeded: &mut Seeded, bytes: &mut Vec<u8>) -> Result<(), Memory> {
    let count = seeded.next() % 9;
    bytes.push(count)?;
    for _byte in 0..count {
        bytes.push(seeded.next())?;
    }
    Ok(())
}

fn is_same(field: &HeaderField, line: &FieldLine) -> bool {
    field.name.as_slice() == line.name() && field.value.as_slice() == line.value()
}

fn are_same(fields: &[HeaderField], lines: &[FieldLine]) -> bool {
    fields.len() == lines.len()
        && fields
            .iter()
            .zip(lines)
            .all(|(field, line)| is_same(field, line))
}

// Whether both read the same, and whether there is a section.
fn agree(alloc: Global, bytes: &[u8]) -> Result<(bool, bool), Memory> {
    let plain = section(alloc, bytes)?;
    let decoded = decode_stateless(alloc, bytes, u64::MAX);
    Ok(match (decoded, plain) {
        (Ok(decoded), Some(lines)) => (are_same(&decoded.fields, &lines), true),
        (Err(DecoderError::Memory), _) => (false, false),
        (Err(_), None) => (true, false),
        _ => (false, false),
    })
}

// 2,000 sections are read the same, and many of them, but not all, can be read.
#[test]
fn seeded_sections_are_read_the_same(rt: HostRuntime) -> Result<(), Fail> {
    let alloc = rt.alloc();
    let mut readable = 0u32;
    for seed in 0..2_000u64 {
        let bytes = seeded_section(alloc, seed.wrapping_mul(0x9e37_79b9_7f4a_7c15))?;
        let (same, is_section) = agree(alloc, &bytes)?;
        assert!(rt; same);
        if is_section {
            readable = readable.saturating_add(1);
        }
    }
    assert!(rt; readable > 300);
    assert!(rt; readable < 1_900);
    Ok(())
}
