//! Laws of which messages can be written, and which are found.
ghost use Rattle.std.specs.Prelude.{ℕ, ◌≤◌, ◌^◌};
ghost use Rattle.qh_spec.specs.Fields.{message_fields, trailer_fields};
ghost use Rattle.qh_spec.specs.Message.{PlainMessage};
ghost use Rattle.qh_spec.specs.Service.{IsLawful};
ghost use Rattle.qh_spec.specs.Size.{section_size};
ghost use Rattle.qh_spec.specs.Validity.{IsValidRequest};
ghost use Rattle.qh_message.specs.Room.{HasRoomFor};
ghost use Rattle.qh_message.specs.Written.{CanBeWritten};

use qh_service::Message;

/// Valid requests and lawful responses can be written. Maps have room for the fields and the trailers of valid requests, and
/// of messages with sections of a size of at most 786,432.
pub fn writable()
    ensures request { (section body : ℕ) (m : PlainMessage) → section ≤ 2 ^ 20 → body ≤ 2 ^ 30 → IsValidRequest section body m → CanBeWritten m }
    ensures response { (section body : ℕ) (m : PlainMessage) → section ≤ 2 ^ 20 → body ≤ 2 ^ 30 → IsLawful section body m → CanBeWritten m }
    ensures room { (m : PlainMessage) → section_size (message_fields m) ≤ 786432 → section_size (trailer_fields m.trailers) ≤ 786432 → HasRoomFor m }
    ensures valid_room { (section body : ℕ) (m : PlainMessage) → IsValidRequest section body m → HasRoomFor m }
{}

/// Maps have room for the fields and the trailers of each message that is at hand: so what is written of it is found where
/// it is read.
pub fn has_room(message: &Message)
    ensures { HasRoomFor message.now }
{
    message.fields().len();
    if let Some(trailers) = message.trailers() {
        trailers.len();
    }
}
