//! What the handles of a connection share (h3, `shared_state.rs`): its error, the peer's settings, and whether it closes.
ghost use Rattle.std.specs.Prelude.{◌≡◌, IfOk};
ghost use Rattle.qh_h3wire.specs.SettingsValue.{plain_of};
ghost use Rattle.qh_h3.specs.Known.{AreOne, IsOffered, Stays};
ghost use Rattle.qh_h3.specs.Seats.{FindsClosing, OffersError, StateId, closed_by, error_answer, first_seat, joined, other_seat, set_answer, settings_of, split_off, with_error, with_settings};

use crate::error::ErrorOrigin;
use crate::shared_state::cell::{Cell, Known};
use crate::shared_state::flag::{FLAG, Flag, Halves, Look, Raise, Sight};
use arrayvec::ArrayVec;
use atomic_table::{Refused, Table};
use qh_base::Memory;
use qh_h3wire::Settings;
use std::alloc::Global;
use std::marker::Model;

mod cell;
mod flag;

/// The error of a connection, the settings that its peer sent, and whether it closes. Contracts see it as its name, by which a seat says that it is of this
/// state.
#[derive(Drop)]
pub struct SharedState {
    error: Cell<ErrorOrigin>,
    settings: Cell<Settings>,
    closing: Table<u8, Sight, u8, Flag, Global>,
}

impl Model for SharedState {
    ghost use Rattle.std.specs.Prelude.{◌≡◌};
    ghost use Rattle.once_cell.specs.Once.{cell_name};
    ghost use Rattle.qh_h3.specs.Seats.{StateId, state_id};

    ghost Value = { StateId };

    ghost view = { λ s. state_id (cell_name s.error.inner) (cell_name s.settings.inner) s.closing.shared.table_id };

    ghost invariant = { λ s. s.closing.shared.table_id.words ≡ 1 };
}

/// What one handle knows of the state: the error and the settings that it found or set, and whether it saw the connection close.
#[derive(Drop)]
pub struct StateSeat {
    error: Known<ErrorOrigin>,
    settings: Known<Settings>,
    closing: atomic_table::Seat<u8, Sight>,
}

impl Model for StateSeat {
    ghost use Rattle.std.specs.Prelude.{◌≡◌, [], true};
    ghost use Rattle.qh_h3.specs.Known.{own_of};
    ghost use Rattle.qh_h3.specs.Seats.{Seated, seated};

    ghost Value = { Seated };

    ghost view = { λ s. seated s.error.note (own_of s.error.own) s.settings.note (own_of s.settings.own) s.closing.table_id s.closing.me.0 };

    ghost invariant = { λ s. s.closing.me.1 ≡ [] };
}

impl SharedState {
    /// A state without an error and without settings that doesn't close, and the first seat, which is alone.
    pub fn new(alloc: Global) -> Result<(SharedState, StateSeat), Memory>
        ensures { IfOk result (λ s. s.1 ≡ first_seat s.0) }
    {
        let (error, known_error) = Cell::new(alloc);
        let (settings, known_settings) = Cell::new(alloc);
        match Table::new(alloc, &[0], Vec::new(alloc), &0) {
            Ok((closing, flag)) => Ok((
                SharedState {
                    error,
                    settings,
                    closing,
                },
                StateSeat {
                    error: known_error,
                    settings: known_settings,
                    closing: flag,
                },
            )),
            Err(Refused { slots: _ }) => Err(Memory),
        }
    }

    /// The error, or None. An error that the seat knows is the one that is answered.
    pub fn get_conn_error(&self, seat: &mut StateSeat) -> Option<ErrorOrigin>
        requires { seat.old.state ≡ self.now }
        ensures answer { result ≡ seat.new.error }
        ensures stays { Stays seat.old.error seat.new.error }
        ensures rest { seat.new ≡ with_error seat.old seat.new.error seat.old.own_error }
    {
        match self.error.get(&mut seat.error) {
            Some(error) => Some(error.copied()),
            None => None,
        }
    }

    /// Sets the error if there is none, and answers the one that counts, which is the first that was set.
    pub fn set_conn_error(
        &self,
        alloc: Global,
        seat: &mut StateSeat,
        error: ErrorOrigin,
    ) -> Result<ErrorOrigin, Memory>
        requires { seat.old.state ≡ self.now }
        ensures answer { result ≡ error_answer seat.new.error }
        ensures offered { OffersError error seat.old seat.new }
    {
        if let Some(first) = self.error.get(&mut seat.error) {
            return Ok(first.copied());
        }
        if self.error.set(alloc, &mut seat.error, error).is_err() {
            return Err(Memory);
        }
        match self.error.get(&mut seat.error) {
            Some(first) => Ok(first.copied()),
            None => unreachable!(),
        }
    }

    /// The same as `set_conn_error`: nobody is registered to be woken.
    pub fn set_conn_error_and_wake(
        &self,
        alloc: Global,
        seat: &mut StateSeat,
        error: ErrorOrigin,
    ) -> Result<ErrorOrigin, Memory>
        requires { seat.old.state ≡ self.now }
        ensures answer { result ≡ error_answer seat.new.error }
        ensures offered { OffersError error seat.old seat.new }
    {
        self.set_conn_error(alloc, seat, error)
    }

    /// The settings of the peer, or the default ones while none are set (RFC 9114, section 7.2.4.2).
    pub fn settings(&self, seat: &mut StateSeat) -> Settings
        requires { seat.old.state ≡ self.now }
        ensures answer { plain_of result ≡ settings_of seat.new.settings }
        ensures stays { Stays seat.old.settings seat.new.settings }
        ensures rest { seat.new ≡ with_settings seat.old seat.new.settings seat.old.own_settings }
    {
        match self.settings.get(&mut seat.settings) {
            Some(settings) => copied(settings),
            None => Settings::default(),
        }
    }

    /// Sets the settings of the peer if none are set. A second call changes nothing.
    pub fn set_settings(
        &self,
        alloc: Global,
        seat: &mut StateSeat,
        settings: Settings,
    ) -> Result<(), Memory>
        requires { seat.old.state ≡ self.now }
        ensures answer { result ≡ set_answer seat.new.settings }
        ensures offered { IsOffered settings seat.old.settings seat.new.settings seat.old.own_settings seat.new.own_settings }
        ensures rest { seat.new ≡ with_settings seat.old seat.new.settings seat.new.own_settings }
    {
        if self.settings.get(&mut seat.settings).is_some() {
            return Ok(());
        }
        match self.settings.set(alloc, &mut seat.settings, settings) {
            Ok(()) => Ok(()),
            Err(_) => Err(Memory),
        }
    }

    /// Says that the connection closes.
    pub fn set_closing(&self, seat: &mut StateSeat)
        requires { seat.old.state ≡ self.now }
        ensures { seat.new ≡ closed_by seat.old }
    {
        self.closing
            .shared
            .fetch_or::<Raise>(&mut seat.closing, FLAG, 1);
    }

    /// Whether the connection closes. It doesn't stop to.
    pub fn is_closing(&self, seat: &mut StateSeat) -> bool
        requires { seat.old.state ≡ self.now }
        ensures answer { result ≡ seat.new.is_closing }
        ensures found { FindsClosing seat.old seat.new }
    {
        self.closing.shared.load::<Look>(&mut seat.closing, FLAG) != 0
    }
}

// The same settings again.
fn copied(settings: &Settings) -> Settings
    ensures { plain_of result ≡ plain_of settings.now }
{
    let mut copy = Settings {
        max_field_section_size: settings.max_field_section_size,
        enable_extended_connect: settings.enable_extended_connect,
        enable_datagram: settings.enable_datagram,
        other: ArrayVec::new(),
    };
    copy.other
        .try_extend_from_slice(settings.other.as_slice())
        .unwrap();
    copy
}

impl StateSeat {
    /// A second seat, for another handle, that knows as much and did nothing yet. Neither is alone then.
    pub fn split(&mut self, state: &SharedState) -> StateSeat
        requires { self.old.state ≡ state.now }
        ensures this { self.new ≡ split_off self.old }
        ensures new { result ≡ other_seat self.old }
    {
        StateSeat {
            error: self.error.again(),
            settings: self.settings.again(),
            closing: state.closing.shared.split_seat::<Halves>(&mut self.closing),
        }
    }

    /// Two seats of a state that both know its error know the same one, and so with the settings. It changes nothing.
    pub fn compare(&mut self, other: &mut StateSeat)
        requires { self.old.state ≡ other.old.state }
        ensures error { AreOne self.old.error other.old.error }
        ensures settings { AreOne self.old.settings other.old.settings }
        ensures this { self.new ≡ self.old }
        ensures that { other.new ≡ other.old }
    {
        self.error.compare(&mut other.error);
        self.settings.compare(&mut other.settings);
    }

    /// Takes another seat in, with what it knows and what it did. What both knew is one error, and are the same settings.
    pub fn join(&mut self, state: &SharedState, other: StateSeat)
        requires { (self.old.state ≡ state.now) × (other.state ≡ state.now) }
        ensures error { Stays self.old.error self.new.error × Stays other.error self.new.error }
        ensures settings { Stays self.old.settings self.new.settings × Stays other.settings self.new.settings }
        ensures rest { self.new ≡ joined self.old other self.new.error self.new.settings }
    {
        let StateSeat {
            error,
            settings,
            closing,
        } = other;
        state.error.join(&mut self.error, error);
        state.settings.join(&mut self.settings, settings);
        state
            .closing
            .shared
            .join_seat::<Halves>(&mut self.closing, closing);
    }
}

/// What has a shared state.
pub trait ConnectionState {
    /// Which state it is.
    ghost state: { Self → StateId };

    /// The shared state.
    fn shared_state(&self) -> &SharedState
        ensures { result.now ≡ state self.now };

    /// `SharedState::get_conn_error`.
    fn get_conn_error(&self, seat: &mut StateSeat) -> Option<ErrorOrigin>
        requires { seat.old.state ≡ Self.state self.now }
        ensures answer { result ≡ seat.new.error }
        ensures stays { Stays seat.old.error seat.new.error }
        ensures rest { seat.new ≡ with_error seat.old seat.new.error seat.old.own_error }
    {
        self.shared_state().get_conn_error(seat)
    }

    /// `SharedState::set_conn_error`.
    fn set_conn_error(
        &self,
        alloc: Global,
        seat: &mut StateSeat,
        error: ErrorOrigin,
    ) -> Result<ErrorOrigin, Memory>
        requires { seat.old.state ≡ Self.state self.now }
        ensures answer { result ≡ error_answer seat.new.error }
        ensures offered { OffersError error seat.old seat.new }
    {
        self.shared_state().set_conn_error(alloc, seat, error)
    }

    /// `SharedState::set_conn_error_and_wake`.
    fn set_conn_error_and_wake(
        &self,
        alloc: Global,
        seat: &mut StateSeat,
        error: ErrorOrigin,
    ) -> Result<ErrorOrigin, Memory>
        requires { seat.old.state ≡ Self.state self.now }
        ensures answer { result ≡ error_answer seat.new.error }
        ensures offered { OffersError error seat.old seat.new }
    {
        self.shared_state()
            .set_conn_error_and_wake(alloc, seat, error)
    }

    /// `SharedState::settings`.
    fn settings(&self, seat: &mut StateSeat) -> Settings
        requires { seat.old.state ≡ Self.state self.now }
        ensures answer { plain_of result ≡ settings_of seat.new.settings }
        ensures stays { Stays seat.old.settings seat.new.settings }
        ensures rest { seat.new ≡ with_settings seat.old seat.new.settings seat.old.own_settings }
    {
        self.shared_state().settings(seat)
    }

    /// `SharedState::set_settings`.
    fn set_settings(
        &self,
        alloc: Global,
        seat: &mut StateSeat,
        settings: Settings,
    ) -> Result<(), Memory>
        requires { seat.old.state ≡ Self.state self.now }
        ensures answer { result ≡ set_answer seat.new.settings }
        ensures offered { IsOffered settings seat.old.settings seat.new.settings seat.old.own_settings seat.new.own_settings }
        ensures rest { seat.new ≡ with_settings seat.old seat.new.settings seat.new.own_settings }
    {
        self.shared_state().set_settings(alloc, seat, settings)
    }

    /// `SharedState::set_closing`.
    fn set_closing(&self, seat: &mut StateSeat)
        requires { seat.old.state ≡ Self.state self.now }
        ensures { seat.new ≡ closed_by seat.old }
    {
        self.shared_state().set_closing(seat);
    }

    /// `SharedState::is_closing`.
    fn is_closing(&self, seat: &mut StateSeat) -> bool
        requires { seat.old.state ≡ Self.state self.now }
        ensures answer { result ≡ seat.new.is_closing }
        ensures found { FindsClosing seat.old seat.new }
    {
        self.shared_state().is_closing(seat)
    }
}

impl ConnectionState for SharedState {
    ghost state = { λ s. s };

    fn shared_state(&self) -> &SharedState {
        self
    }
}
