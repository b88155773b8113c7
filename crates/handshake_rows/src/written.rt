//! Packets with a long header, as they are written.
use crate::say::{id, put_named, put_part};
use qh_base::ConnectionId;
use qh_packet::{put_initial, put_retry, put_version_negotiation};
use row_text::{RowFault, Words};
use std::alloc::Global;

// Lengths in these rows are below this.
const END: usize = 1 << 14;

// What an Initial packet has in its body beside its frames.
const NUMBER_AND_TAG: usize = 36;

/// Answers a row: how many bytes the packet has, and its bytes.
pub(crate) fn answer(
    alloc: Global,
    word: &str,
    words: &mut Words<'_>,
    out: &mut Vec<u8>,
) -> Result<(), RowFault> {
    let mut bytes = Vec::new(alloc);
    write(alloc, word, words, &mut bytes)?;
    put_named(out, "", bytes.len() as u64)?;
    put_part(out, " ", &bytes)?;
    Ok(())
}

fn write(
    alloc: Global,
    word: &str,
    words: &mut Words<'_>,
    bytes: &mut Vec<u8>,
) -> Result<(), RowFault> {
    match word {
        "initial" => write_initial(alloc, words, bytes),
        "retry" => write_retry(alloc, words, bytes),
        _ => write_versions(alloc, words, bytes),
    }
}

// DESTINATION SOURCE NUMBER SIZE TAG TOKEN FRAMES
fn write_initial(
    alloc: Global,
    words: &mut Words<'_>,
    bytes: &mut Vec<u8>,
) -> Result<(), RowFault> {
    let parts = InitialParts {
        destination: id(alloc, words)?,
        source: id(alloc, words)?,
        number: words.number()?,
        size: words.number()?,
        tag: tag(alloc, words)?,
    };
    let token = words.bytes(alloc)?;
    write_frames(alloc, words, bytes, &parts, &token)
}

// The parts of an Initial packet that have no memory of their own.
#[derive(Clone, Copy)]
struct InitialParts {
    destination: ConnectionId,
    source: ConnectionId,
    number: u64,
    size: u64,
    tag: [u8; 32],
}

// The next word as a tag.
fn tag(alloc: Global, words: &mut Words<'_>) -> Result<[u8; 32], RowFault> {
    match words.bytes(alloc)?.first_chunk::<32>() {
        Some(tag) => Ok(*tag),
        None => Err(RowFault::Form),
    }
}

fn write_frames(
    alloc: Global,
    words: &mut Words<'_>,
    bytes: &mut Vec<u8>,
    parts: &InitialParts,
    token: &[u8],
) -> Result<(), RowFault> {
    let frames = words.bytes(alloc)?;
    write_parts(bytes, parts, token, &frames)
}

fn write_parts(
    bytes: &mut Vec<u8>,
    parts: &InitialParts,
    token: &[u8],
    frames: &[u8],
) -> Result<(), RowFault> {
    if token.len() >= END || frames.len() >= END - NUMBER_AND_TAG || parts.size >= END as u64 {
        return Err(RowFault::Form);
    }
    put_initial(
        bytes,
        &parts.destination,
        &parts.source,
        token,
        parts.number,
        frames,
        parts.size as usize,
        &parts.tag,
    )?;
    Ok(())
}

// DESTINATION SOURCE ORIGINAL TOKEN
fn write_retry(alloc: Global, words: &mut Words<'_>, bytes: &mut Vec<u8>) -> Result<(), RowFault> {
    let destination = id(alloc, words)?;
    let source = id(alloc, words)?;
    let original = id(alloc, words)?;
    let token = words.bytes(alloc)?;
    if token.is_empty() || source.bytes() == original.bytes() {
        return Err(RowFault::Form);
    }
    put_retry(bytes, &destination, &source, &token, &original)?;
    Ok(())
}

// FIRST DESTINATION SOURCE VERSION, of which there may be several
fn write_versions(
    alloc: Global,
    words: &mut Words<'_>,
    bytes: &mut Vec<u8>,
) -> Result<(), RowFault> {
    let first = words.number()?;
    let destination = id(alloc, words)?;
    let source = id(alloc, words)?;
    let mut versions = Vec::new(alloc);
    read_versions(words, &mut versions)?;
    if first < 0xc0 || first > 0xff || versions.is_empty() {
        return Err(RowFault::Form);
    }
    put_version_negotiation(
        bytes,
        first as u8,
        destination.bytes(),
        source.bytes(),
        &versions,
    )?;
    Ok(())
}

fn read_versions(words: &mut Words<'_>, versions: &mut Vec<u32>) -> Result<(), RowFault> {
    for _version in 0..u64::MAX {
        if words.is_at_end() {
            break;
        }
        versions.push(version(words)?)?;
    }
    Ok(())
}

/// The next word as a version.
pub(crate) fn version(words: &mut Words<'_>) -> Result<u32, RowFault> {
    let version = words.number()?;
    if version >= 1 << 32 {
        return Err(RowFault::Form);
    }
    Ok(version as u32)
}
