ghost use Rattle.std.specs.Prelude.{◌≡◌, true, false};
ghost use Rattle.qh_frame.specs.Plain.{plain_of};
ghost use Rattle.qh_handshake.specs.Closing.{BringsClose, HaveClose, IsClosing, is_close};
ghost use Rattle.qh_handshake.specs.Incoming.{form_of};

use crate::Handshake;
use qh_frame::{Frame, get_frame};
use qh_packet::{InitialForm, Session};

impl Handshake {
    /// Whether one of the Initial packets with which a datagram begins closes: it is one for this end, all its frames can be read,
    /// with values in range, and one of them is a CONNECTION_CLOSE of the transport. It is for an end that closed before it has 1-RTT
    /// keys (RFC 9000, section 10.2.1), and changes nothing.
    pub fn brings_close<S: Session>(&self, session: &S, datagram: &[u8]) -> bool
        ensures yes { result ≡ true → BringsClose (S.accepts session.now) self.now datagram.now }
        ensures no { result ≡ false → BringsClose (S.accepts session.now) self.now datagram.now → ⊥ }
    {
        let mut rest = datagram;
        while let Some(form) = InitialForm::read(rest) {
            if self.is_closing(session, &form) {
                return true;
            }
            rest = form.rest;
        }
        false
    }

    // Whether the Initial packet of this form closes.
    fn is_closing<S: Session>(&self, session: &S, form: &InitialForm<'_>) -> bool
        ensures yes { result ≡ true → IsClosing (S.accepts session.now) self.now (form_of form.now) }
        ensures no { result ≡ false → IsClosing (S.accepts session.now) self.now (form_of form.now) → ⊥ }
    {
        match self.open(session, form) {
            Some(packet) => have_close(packet.frames),
            None => false,
        }
    }
}

// Whether bytes are frames with values in range, and one of them is a CONNECTION_CLOSE of the transport.
fn have_close(frames: &[u8]) -> bool
    ensures yes { result ≡ true → HaveClose frames.now }
    ensures no { result ≡ false → HaveClose frames.now → ⊥ }
{
    let mut has_close = false;
    let mut rest = frames;
    while !rest.is_empty() {
        let Ok((frame, more)) = get_frame(rest) else {
            return false;
        };
        has_close |= closes(&frame);
        rest = more;
    }
    has_close
}

// Whether the frame is a CONNECTION_CLOSE of the transport.
fn closes(frame: &Frame<'_>) -> bool
    ensures { result ≡ is_close (plain_of frame.now) }
{
    matches!(frame, Frame::ConnectionClose { .. })
}
