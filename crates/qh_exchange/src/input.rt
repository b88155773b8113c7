//! What a run reads.

ghost use Rattle.std.specs.Prelude.{◌≡◌, ◌<◌, ℕ, List, length, IfOk, IfErr, IfSome, IfNone};
ghost use Rattle.qh_spec.specs.Fault.{Rose};
ghost use Rattle.qh_exchange.specs.Pieces.{ReadsPiece};
ghost use Rattle.qh_exchange.specs.Reading.{HasRead, IsInput};

use qh_base::{Memory, Source};
use qh_script::MAX_SCRIPT;
use std::alloc::Global;

// How many bytes are asked for at once.
const PIECE: usize = 4_096;

/// What one read of a source gave.
#[derive(Clone, Copy, PartialEq, Eq)]
pub(crate) enum Piece {
    /// Bytes, which aren't none.
    Bytes,
    /// The source's end.
    End,
    /// The source failed.
    Failed,
}

/// What a source gives up to its end, or a front of it that is longer than a script has at most. None where it failed.
pub(crate) fn read_text<S: Source>(alloc: Global, source: &mut S) -> Result<Option<Vec<u8>>, Memory>
    ensures text { IfOk result (λ found. IfSome found (λ text. IsInput (S.left source.old) (S.left source.new) text.items × (S.faults source.new ≡ S.faults source.old))) }
    ensures fault { IfOk result (λ found. IfNone found (Rose (S.faults source.old) (S.faults source.new))) }
    ensures unread { IfErr result (λ _. (front : List ℕ) × (0 < length front) × HasRead (S.left source.old) (S.left source.new) front × (S.faults source.new ≡ S.faults source.old)) }
{
    let mut text = Vec::new(alloc);
    for _piece in 0..=MAX_SCRIPT {
        match read_piece(source, &mut text)? {
            Piece::Bytes => {}
            Piece::End => return Ok(Some(text)),
            Piece::Failed => return Ok(None),
        }
        if text.len() > MAX_SCRIPT {
            return Ok(Some(text));
        }
    }
    Ok(Some(text))
}

// Reads once, and puts the bytes behind the text.
fn read_piece<S: Source>(source: &mut S, text: &mut Vec<u8>) -> Result<Piece, Memory>
    ensures piece { IfOk result (λ piece. ReadsPiece piece (S.left source.old) (S.left source.new) text.old.items text.new.items (S.faults source.old) (S.faults source.new)) }
    ensures unread { IfErr result (λ _. (bytes : List ℕ) × (0 < length bytes) × HasRead (S.left source.old) (S.left source.new) bytes × (S.faults source.new ≡ S.faults source.old)) }
{
    let mut buf = [0; PIECE];
    match source.read(&mut buf) {
        Ok(0) => Ok(Piece::End),
        Ok(len) => {
            text.extend_from_slice(&buf[..len])?;
            Ok(Piece::Bytes)
        }
        Err(_) => Ok(Piece::Failed),
    }
}
