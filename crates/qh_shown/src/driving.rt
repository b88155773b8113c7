//! What the calls of a driver bring.

ghost use Rattle.std.specs.Prelude.{◌≡◌, [], ℕ, List, Bool, Option, true, false, None};
ghost use Rattle.std.specs.Option.{option_map};
ghost use Rattle.qh_base.specs.declared.connection_error.ConnectionError.{ConnectionError as AnError};
ghost use Rattle.qh_base.specs.declared.path.FourTuple.{FourTuple as APath};
ghost use Rattle.qh_base.specs.declared.path.Transmit.{Transmit as ATransmit};
ghost use Rattle.qh_base.specs.declared.time.Moment.{Moment as AMoment};
ghost use Rattle.qh_base.specs.declared.transport_error.TransportError.{TransportError as ATransportError};
ghost use Rattle.qh_book.specs.Book.{Book};
ghost use Rattle.qh_book.specs.Shown.{Note as ANote};
ghost use Rattle.qh_conn.specs.Greeting.{no_early};
ghost use Rattle.qh_conn.specs.Incoming.{IsCloseCalled, IsDatagramHandled, IsEventHandled};
ghost use Rattle.qh_conn.specs.Items.{items_taken, log_started, loss_noted};
ghost use Rattle.qh_conn.specs.Outgoing.{IsStill, IsTransmitted};
ghost use Rattle.qh_conn.specs.Parameters.{IsFirstCore, first_control};
ghost use Rattle.qh_conn.specs.Telling.{IsEndpointTold, IsTimedOut, IsTold};
ghost use Rattle.qh_conn.specs.Unread.{EndsUnsent, HasFailed, IsEventUnread, IsTimeCut, IsUnsent};
ghost use Rattle.qh_conn.specs.Whole.{IsWhole};
ghost use Rattle.qh_conn.specs.declared.config.ConnConfig.{ConnConfig as AConfig};
ghost use Rattle.qh_conn.specs.declared.connection.Connection.{Connection as AConnection};
ghost use Rattle.qh_conn.specs.declared.event.ConnectionEvent.{ConnectionEvent as AnEvent};
ghost use Rattle.qh_conn.specs.declared.event.Event.{Event as Told};
ghost use Rattle.qh_control.specs.declared.event.EndpointEvent.{EndpointEvent as ToldToEndpoint};
ghost use Rattle.qh_core.specs.Event.{is_drained};
ghost use Rattle.qh_core.specs.Inner.{is_open};
ghost use Rattle.qh_core.specs.Receiving.{IsFaulted};
ghost use Rattle.qh_handshake.specs.Handshake.{with_origin};
ghost use Rattle.qh_handshake.specs.Incoming.{SessionView};
ghost use Rattle.qh_handshake.specs.declared.handshake.Handshake.{Handshake as AHandshake};
ghost use Rattle.qh_packet.specs.Session.{SealsTag};
ghost use Rattle.qh_shown.specs.Brings.{Brings, BringsSome, EndsWanting, IsLogging, TellsOf};
ghost use Rattle.qh_shown.specs.Connections.{IsBegun, IsBegunLogged, ShowsConnection};
ghost use Rattle.qh_spec.specs.declared.sides.Side.{Side as ASide};

use crate::known::books_show;

/// A connection that is new has begun (`new`), and one has that went on from it by events and settings of its handshake (`brings`, `handshake`). If its log was
/// started then (`started`), the log has what it went on by (`logged`).
pub fn begun_shown<S>()
    ensures new { (config : AConfig) (side : ASide) (session : S) (local_id remote_id : List ℕ) (addresses : APath) (now : AMoment) (c : AConnection S) → IsFirstCore config side session local_id remote_id addresses now c.core
        → c.config ≡ config → c.is_connected ≡ false → c.is_connected_due ≡ false → c.early ≡ no_early → c.handshake.peer ≡ None → c.control ≡ first_control config local_id remote_id addresses.remote c.control.queue.room → IsBegun c }
    ensures brings { (old new : AConnection S) → IsBegun old → BringsSome old new → new.config ≡ old.config → new.core.side ≡ old.core.side → new.core.addresses ≡ old.core.addresses → IsBegun new }
    ensures started { (config : AConfig) (side : ASide) (session : S) (local_id remote_id : List ℕ) (addresses : APath) (now : AMoment) (c : AConnection S) → IsFirstCore config side session local_id remote_id addresses now c.core
        → c.config ≡ config → c.is_connected ≡ false → c.is_connected_due ≡ false → c.early ≡ no_early → c.handshake.peer ≡ None → c.control ≡ first_control config local_id remote_id addresses.remote c.control.queue.room → IsBegunLogged (log_started c) }
    ensures logged { (old new : AConnection S) → IsBegunLogged old → BringsSome old new → new.config ≡ old.config → new.core.side ≡ old.core.side → new.core.addresses ≡ old.core.addresses → IsBegunLogged new }
    ensures handshake { (c : AConnection S) (handshake : AHandshake) → handshake.peer ≡ c.handshake.peer → Brings [] c (record c { handshake = handshake }) }
{
    books_show();
}

/// Items come one after another (`both`); nothing brings none (`none`).
pub fn events_bring<S>()
    ensures none { (c : AConnection S) → Brings [] c c }
    ensures both { (old mid new : AConnection S) → BringsSome old mid → BringsSome mid new → BringsSome old new }
    ensures event { (v : SessionView S) (event : AnEvent) (old new : AConnection S) → IsWhole old → IsWhole new → IsLogging old → IsEventHandled v event old new → BringsSome old new }
{
    books_show();
}

/// What a datagram brings, and nothing comes of the rest that is told of it.
pub fn datagrams_bring<S>()
    ensures { (v : SessionView S) (now : AMoment) (datagram : List ℕ) (old new : AConnection S) → IsWhole old → IsWhole new → IsLogging old → IsDatagramHandled v now datagram old new → BringsSome old new }
{
    books_show();
}

/// What is due brings no item (`timed`), but that the connection may be lost by it; and what is told of a connection brings none (`told`, `endpoint`).
pub fn times_bring<S>()
    ensures timed { (now : ℕ) (old new : AConnection S) → IsWhole old → IsTimedOut now old new → Brings [] old new }
    ensures told { (told : Option Told) (old new : AConnection S) → IsTold old new told → TellsOf told old new }
    ensures endpoint { (told : Option ToldToEndpoint) (old new : AConnection S) → IsEndpointTold old new told → Brings [] old new }
{
    books_show();
}

/// A datagram that is sent brings which of the application's were sent in it (`sent`), and none brings nothing (`silent`).
pub fn sends_bring<S>()
    ensures sent { (sealed : SealsTag) (now : AMoment) (old new : AConnection S) (before after : List ℕ) (transmit : ATransmit) → IsWhole old → IsTransmitted sealed now old new before after transmit → BringsSome old new }
    ensures silent { (old new : AConnection S) → IsStill old new → Brings [] old new }
{
    books_show();
}

/// A close brings no item (`called`), nor does a fault from outside (`faulted`), but that the connection is lost.
pub fn closes_shown<S>()
    ensures called { (now : AMoment) (code : ℕ) (reason : List ℕ) (old new : AConnection S) → IsCloseCalled now code reason old new → Brings [] old new }
    ensures faulted { (now : AMoment) (e : ATransportError) (old new : AConnection S) → IsFaulted now e old.core new.core → new ≡ record old { core = new.core } → is_drained old.core.state ≡ false → Brings [] old new }
{
    books_show();
}

/// The items of the log can be taken (`taken`), it can be noted that the connection is lost (`noted`), and it can be started (`started`): what the
/// connection shows is the same. The log of its streams is on still, or is then (`logging`).
pub fn log_shown<S>()
    ensures taken { (was_told : Bool) (c : AConnection S) (notes : ℕ → ANote) (b : Book) → ShowsConnection was_told c notes b → ShowsConnection was_told (items_taken c) notes b }
    ensures noted { (was_told : Bool) (c : AConnection S) (notes : ℕ → ANote) (b : Book) → ShowsConnection was_told c notes b → ShowsConnection was_told (loss_noted c) notes b }
    ensures started { (was_told : Bool) (c : AConnection S) (notes : ℕ → ANote) (b : Book) → ShowsConnection was_told c notes b → ShowsConnection was_told (log_started c) notes b }
    ensures logging { (c : AConnection S) → (IsLogging c → IsLogging (items_taken c)) × (IsLogging c → IsLogging (loss_noted c)) × IsLogging (log_started c) }
{
    books_show();
}

/// What want of memory leaves of a connection, for an event (`event`), for what is due (`timed`), for a datagram that is to be sent (`unsent`), unless it
/// doesn't end the connection (`closing`).
pub fn wants_bring<S>()
    ensures event { (v : SessionView S) (event : AnEvent) (old mid new : AConnection S) → IsWhole old → IsWhole new → is_open old.core.state ≡ true → IsLogging old → IsEventUnread v event old mid → HasFailed mid new → EndsWanting old new }
    ensures timed { (now : ℕ) (old mid new : AConnection S) → IsWhole old → IsWhole new → IsTimeCut now old mid → HasFailed mid new → EndsWanting old new }
    ensures unsent { (now : AMoment) (old mid new : AConnection S) → IsWhole old → IsWhole new → IsUnsent now old mid → HasFailed mid new → EndsWanting old new }
    ensures closing { (old new : AConnection S) → new ≡ record old { handshake = new.handshake } → new.handshake.peer ≡ old.handshake.peer → Brings [] old new }
{
    books_show();
}
