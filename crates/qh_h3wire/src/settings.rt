ghost use Rattle.std.specs.Prelude.{◌≡◌, ℕ, ◌<◌, ◌^◌, ◌++◌, List, length, flat_map, MatchOption, MatchResult, OnOk, OnErr};
ghost use Rattle.std.specs.List.{AllByRecursion};
ghost use Rattle.qh_h3wire.specs.Settings.{Entry, PlainSettings, AreEntries, MeansSettings, IsSettingsFault, HasNoFault, AreWritable, entry_bytes, limited, switched, settings_bytes};
ghost use Rattle.qh_h3wire.specs.Grown.{HasGrown};
ghost use Rattle.qh_h3wire.specs.SettingsAt.{entry_of, has_id, own_fault};
ghost use Rattle.qh_h3wire.specs.SettingsReading.{HaveForms, with_entry, HasRead, IsReading, RefusesSettings, StopsReading, TakesEntry, TakesFront};
ghost use Rattle.qh_h3wire.specs.SettingsValue.{plain_of, default_settings};
ghost use Rattle.qh_h3wire.specs.declared.settings.SettingsError.{SettingsError as AnError};

use crate::pair::Pair;
use arrayvec::ArrayVec;
use qh_base::{Memory, VarInt};
use std::alloc::Global;
use std::collections::BTreeSet;
use std::error::Error;
use std::fmt;

/// The settings of an end (RFC 9114, section 7.2.4).
#[derive(Drop)]
pub struct Settings {
    /// The greatest size of a field section that the end takes (section 4.2.2). From 2^62 - 1 on there is no limit.
    pub max_field_section_size: u64,
    /// Whether extended CONNECT is taken (RFC 9220, section 3).
    pub enable_extended_connect: bool,
    /// Whether HTTP datagrams are taken (RFC 9297, section 2.1.1).
    pub enable_datagram: bool,
    /// Other ids with their values.
    pub other: ArrayVec<(u64, u64), 8>,
}

/// Why the payload of a SETTINGS frame is refused. The first entry at fault decides.
#[derive(Clone, Copy, Debug, PartialEq, Eq)]
pub enum SettingsError {
    /// An entry is cut.
    Malformed,
    /// The id stands twice.
    Repeated(u64),
    /// The id is one that HTTP/2 had.
    Forbidden(u64),
    /// A flag, with its id, is neither 0 nor 1.
    Value(u64, u64),
    /// The allocator had no memory, and the payload has no fault.
    Memory,
}

impl fmt::Display for SettingsError {
    fn fmt<W: fmt::Write>(&self, f: &mut fmt::Formatter<W>) -> fmt::Result {
        match self {
            SettingsError::Malformed => f.write_str("a setting is cut"),
            SettingsError::Repeated(id) => put_setting(f, *id, "stands twice"),
            SettingsError::Forbidden(id) => put_setting(f, *id, "is reserved"),
            SettingsError::Value(id, value) => put_value(f, *id, *value),
            SettingsError::Memory => f.write_str("out of memory"),
        }
    }
}

impl Error for SettingsError {}

// Writes an id, and what is wrong with it.
fn put_setting<W: fmt::Write>(f: &mut fmt::Formatter<W>, id: u64, fault: &str) -> fmt::Result {
    write!(f, "the setting {id:#x} {fault}")
}

// Writes an id, and the value that it can't have.
fn put_value<W: fmt::Write>(f: &mut fmt::Formatter<W>, id: u64, value: u64) -> fmt::Result {
    write!(f, "the setting {id:#x} can't be {value}")
}

/// SETTINGS_QPACK_MAX_TABLE_CAPACITY (RFC 9204, section 5).
const TABLE_CAPACITY: u64 = 1;

/// SETTINGS_MAX_FIELD_SECTION_SIZE (RFC 9114, section 7.2.4.1).
const FIELD_SECTION_SIZE: u64 = 6;

/// SETTINGS_QPACK_BLOCKED_STREAMS (RFC 9204, section 5).
const BLOCKED_STREAMS: u64 = 7;

/// SETTINGS_ENABLE_CONNECT_PROTOCOL (RFC 9220, section 3).
const EXTENDED_CONNECT: u64 = 8;

/// SETTINGS_H3_DATAGRAM (RFC 9297, section 2.1.1).
const DATAGRAM: u64 = 0x33;

impl Default for Settings {
    /// No limit, both flags off, and no other ids.
    fn default() -> Settings
        ensures { plain_of result ≡ default_settings }
    {
        Settings {
            max_field_section_size: VarInt::MAX_VALUE,
            enable_extended_connect: false,
            enable_datagram: false,
            other: ArrayVec::new(),
        }
    }
}

impl Settings {
    /// Reads the payload of a SETTINGS frame.
    pub(crate) fn decode(alloc: Global, payload: &[u8]) -> Result<Settings, SettingsError>
        ensures { MatchResult result (λ s. MeansSettings payload.now (plain_of s)) (λ e. RefusesSettings e payload.now) }
    {
        match Settings::read(alloc, payload) {
            Err(SettingsError::Memory) => Err(fault_in(payload).unwrap_or(SettingsError::Memory)),
            answer => answer,
        }
    }

    // The same, but `Memory` says nothing of the payload.
    fn read(alloc: Global, payload: &[u8]) -> Result<Settings, SettingsError>
        ensures { MatchResult result (λ s. MeansSettings payload.now (plain_of s)) (λ e. StopsReading e payload.now) }
    {
        let mut reading = Reading {
            seen: BTreeSet::new(alloc),
            settings: Settings::default(),
        };
        let mut rest = payload;
        while !rest.is_empty() {
            rest = reading.take_front(rest)?;
        }
        Ok(reading.settings)
    }

    /// Appends the payload of a SETTINGS frame.
    pub(crate) fn encode(&self, out: &mut Vec<u8>) -> Result<(), Memory>
        requires { AreWritable (plain_of self.now) }
        ensures ok { OnOk result (out.new.items ≡ out.old.items ++ settings_bytes (plain_of self.now)) }
        ensures short { OnOk result (length (settings_bytes (plain_of self.now)) < 2 ^ 62) }
        ensures err { OnErr result (HasGrown out.old.items out.new.items) }
    {
        write_entries(out, self.other.as_slice())?;
        write_limit(out, self.max_field_section_size)?;
        write_switch(out, EXTENDED_CONNECT, self.enable_extended_connect)?;
        write_switch(out, DATAGRAM, self.enable_datagram)
    }

    // Sets what this id stands for. One that isn't known changes nothing.
    fn set(&mut self, entry: Pair)
        requires { length self.old.other.items < 8 }
        ensures { plain_of self.new ≡ with_entry (plain_of self.old) (entry_of entry) }
    {
        match entry.first {
            FIELD_SECTION_SIZE => self.max_field_section_size = entry.second,
            EXTENDED_CONNECT => self.enable_extended_connect = entry.second == 1,
            DATAGRAM => self.enable_datagram = entry.second == 1,
            TABLE_CAPACITY | BLOCKED_STREAMS => self.other.push((entry.first, entry.second)),
            _ => {}
        }
    }
}

// What was read of a payload so far: each id, and what the ids that are known stand for.
#[derive(Drop)]
struct Reading {
    seen: BTreeSet<u64>,
    settings: Settings,
}

impl Reading {
    // Takes the entry that begins the rest, and hands back what follows it.
    fn take_front<'a>(&mut self, rest: &'a [u8]) -> Result<&'a [u8], SettingsError>
        requires some { 0 < length rest.now }
        requires room { length self.old.settings.other.items < 8 }
        ensures { (payload : List ℕ) → IsReading payload rest.now self.old → TakesFront result payload rest.now self.new }
    {
        let Some(entry) = Pair::read(rest) else {
            return Err(SettingsError::Malformed);
        };
        self.take(entry)?;
        Ok(&rest[entry.size..])
    }

    // Takes one entry more. After an error nothing more is read.
    fn take(&mut self, entry: Pair) -> Result<(), SettingsError>
        requires { length self.old.settings.other.items < 8 }
        ensures { (front : List Entry) → HasRead front self.old → TakesEntry result front (entry_of entry) self.new }
    {
        match self.seen.insert(entry.first) {
            Ok(true) => {}
            Ok(false) => return Err(SettingsError::Repeated(entry.first)),
            Err(_) => return Err(SettingsError::Memory),
        }
        if let Some(fault) = own_fault(entry) {
            return Err(fault);
        }
        self.settings.set(entry);
        Ok(())
    }
}

// The fault of a payload. It takes no memory: it looks for each id among the entries before it, in a time that grows with the
// square of their number. So it is called only if the allocator had no memory, and the buffer that holds the frame bounds
// what a peer can make of it.
fn fault_in(payload: &[u8]) -> Option<SettingsError>
    ensures { MatchOption result (HasNoFault payload.now) (λ e. IsSettingsFault payload.now e) }
{
    let mut at = 0;
    while at < payload.len() {
        let Some(entry) = Pair::read(&payload[at..]) else {
            return Some(SettingsError::Malformed);
        };
        if has_id(&payload[..at], entry.first) {
            return Some(SettingsError::Repeated(entry.first));
        }
        if let Some(fault) = own_fault(entry) {
            return Some(fault);
        }
        at += entry.size;
    }
    None
}

// Whether one of the entries has this id.
fn has_id(entries: &[u8], id: u64) -> bool
    ensures { (es : List Entry) → AreEntries entries.now es → result ≡ has_id id es }
{
    let mut rest = entries;
    while let Some(entry) = Pair::read(rest) {
        if entry.first == id {
            return true;
        }
        rest = &rest[entry.size..];
    }
    false
}

// Why an entry may stand nowhere.
fn own_fault(entry: Pair) -> Option<SettingsError>
    ensures { result ≡ own_fault (entry_of entry) }
{
    match entry.first {
        2..=5 => Some(SettingsError::Forbidden(entry.first)),
        EXTENDED_CONNECT | DATAGRAM if entry.second > 1 => {
            Some(SettingsError::Value(entry.first, entry.second))
        }
        _ => None,
    }
}

// Appends entries.
fn write_entries(out: &mut Vec<u8>, entries: &[(u64, u64)]) -> Result<(), Memory>
    requires { HaveForms entries.now }
    ensures ok { OnOk result (out.new.items ≡ out.old.items ++ flat_map entry_bytes entries.now) }
    ensures err { OnErr result (HasGrown out.old.items out.new.items) }
{
    for entry in entries {
        write_entry(out, *entry)?;
    }
    Ok(())
}

// Appends one entry.
fn write_entry(out: &mut Vec<u8>, entry: (u64, u64)) -> Result<(), Memory>
    requires first { entry.0 < 2 ^ 62 }
    requires second { entry.1 < 2 ^ 62 }
    ensures ok { OnOk result (out.new.items ≡ out.old.items ++ entry_bytes entry) }
    ensures err { OnErr result (HasGrown out.old.items out.new.items) }
{
    Pair::write(out, entry.0, entry.1)
}

// Appends the limit, where there is one.
fn write_limit(out: &mut Vec<u8>, limit: u64) -> Result<(), Memory>
    ensures ok { OnOk result (out.new.items ≡ out.old.items ++ flat_map entry_bytes (limited limit)) }
    ensures err { OnErr result (HasGrown out.old.items out.new.items) }
{
    if limit < VarInt::MAX_VALUE {
        Pair::write(out, FIELD_SECTION_SIZE, limit)
    } else {
        Ok(())
    }
}

// Appends an id with the value 1, where it is on.
fn write_switch(out: &mut Vec<u8>, id: u64, on: bool) -> Result<(), Memory>
    requires { id < 2 ^ 62 }
    ensures ok { OnOk result (out.new.items ≡ out.old.items ++ flat_map entry_bytes (switched on id)) }
    ensures err { OnErr result (HasGrown out.old.items out.new.items) }
{
    if on { Pair::write(out, id, 1) } else { Ok(()) }
}

/// The payload of a SETTINGS frame has one fault at most. It means settings exactly if it has none.
pub fn settings_faults()
    ensures one { (payload : List ℕ) (e f : AnError) → IsSettingsFault payload e → IsSettingsFault payload f → e ≡ f }
    ensures none { (payload : List ℕ) (s : PlainSettings) → MeansSettings payload s → HasNoFault payload }
    ensures means { (payload : List ℕ) → AllByRecursion (λ (b : ℕ). b < 256) payload → HasNoFault payload → (s : PlainSettings) × MeansSettings payload s }
{}
