//! Which settings fit, and what the program's words ask for.
use crate::say::{Line, find};
use qh_base::Span;
use qh_script::{Command, Config, default_config, fits, read_command};
use row_text::{RowFault, Words};
use std::alloc::Global;

// A size or a window.
#[derive(Clone, Copy)]
enum Size {
    MaxRequests,
    MaxFieldSectionSize,
    MaxRequestBody,
    MaxResponseBody,
    MaxBidi,
    MaxUni,
    ReceiveWindow,
    StreamWindow,
    SendWindow,
    InitialWindow,
}

const SIZES: [(&str, Size); 10] = [
    ("max_requests", Size::MaxRequests),
    ("max_field_section_size", Size::MaxFieldSectionSize),
    ("max_request_body", Size::MaxRequestBody),
    ("max_response_body", Size::MaxResponseBody),
    ("max_bidi", Size::MaxBidi),
    ("max_uni", Size::MaxUni),
    ("receive_window", Size::ReceiveWindow),
    ("stream_window", Size::StreamWindow),
    ("send_window", Size::SendWindow),
    ("initial_window", Size::InitialWindow),
];

// What is no size and no window.
#[derive(Clone, Copy)]
enum Other {
    LocalIdLen,
    FirstIdLen,
    OneMoreVersion,
    NoVersions,
    Version,
    Idle,
    NoIdle,
    InitialRtt,
    MaxIncoming,
    IncomingBufferSize,
    IncomingBufferSizeTotal,
    Retry,
    RetryTokenLifetime,
    MinResetInterval,
    SendGrease,
}

const OTHERS: [(&str, Other); 15] = [
    ("local_id_len", Other::LocalIdLen),
    ("first_id_len", Other::FirstIdLen),
    ("one_more_version", Other::OneMoreVersion),
    ("no_versions", Other::NoVersions),
    ("version", Other::Version),
    ("idle", Other::Idle),
    ("no_idle", Other::NoIdle),
    ("initial_rtt", Other::InitialRtt),
    ("max_incoming", Other::MaxIncoming),
    ("incoming_buffer_size", Other::IncomingBufferSize),
    ("incoming_buffer_size_total", Other::IncomingBufferSizeTotal),
    ("retry", Other::Retry),
    ("retry_token_lifetime", Other::RetryTokenLifetime),
    ("min_reset_interval", Other::MinResetInterval),
    ("send_grease", Other::SendGrease),
];

/// Whether the settings fit where one of them has this number: `fits NAME N ..`.
pub(crate) fn answer_fits(alloc: Global, words: &mut Words<'_>, out: &mut Line) {
    match default_config(alloc) {
        Ok(mut config) => {
            set_all(&mut config, words, out);
            out.put_yes(fits(&config));
        }
        Err(_) => out.lack(),
    }
}

fn set_all(config: &mut Config, words: &mut Words<'_>, out: &mut Line) {
    for _setting in 0..u8::MAX {
        if words.is_at_end() || out.has_fault() {
            break;
        }
        set_next(config, words, out);
    }
}

fn set_next(config: &mut Config, words: &mut Words<'_>, out: &mut Line) {
    let name = words.next();
    let Ok(number) = words.number() else {
        return out.refuse();
    };
    match find(&SIZES, name) {
        Some(size) => set_size(config, size, number),
        None => set_other(config, name, number, out),
    }
}

fn set_size(config: &mut Config, size: Size, number: u64) {
    match size {
        Size::MaxRequests => config.max_requests = number,
        Size::MaxFieldSectionSize => config.max_field_section_size = number,
        Size::MaxRequestBody => config.max_request_body = number,
        Size::MaxResponseBody => config.max_response_body = number,
        Size::MaxBidi => config.max_bidi = number,
        Size::MaxUni => config.max_uni = number,
        Size::ReceiveWindow => config.receive_window = number,
        Size::StreamWindow => config.stream_window = number,
        Size::SendWindow => config.send_window = number,
        Size::InitialWindow => config.initial_window = number,
    }
}

fn set_other(config: &mut Config, name: &str, number: u64, out: &mut Line) {
    match find(&OTHERS, name) {
        Some(Other::LocalIdLen) => config.local_id_len = number,
        Some(Other::FirstIdLen) => config.first_id_len = number,
        Some(Other::OneMoreVersion) => push_version(config, number, out),
        Some(Other::NoVersions) => config.versions.clear(),
        Some(Other::Version) => config.version = number.min(9) as u32,
        Some(Other::Idle) => config.idle = Some(Span(number)),
        Some(Other::NoIdle) => config.idle = None,
        Some(Other::InitialRtt) => config.initial_rtt = Span(number),
        Some(Other::MaxIncoming) => config.max_incoming = number,
        Some(Other::IncomingBufferSize) => config.incoming_buffer_size = number,
        Some(Other::IncomingBufferSizeTotal) => config.incoming_buffer_size_total = number,
        Some(Other::Retry) => config.retry = number == 1,
        Some(Other::RetryTokenLifetime) => config.retry_token_lifetime = Span(number),
        Some(Other::MinResetInterval) => config.min_reset_interval = Span(number),
        Some(Other::SendGrease) => config.send_grease = number == 1,
        None => out.refuse(),
    }
}

fn push_version(config: &mut Config, number: u64, out: &mut Line) {
    if config.versions.push(number.min(9) as u32).is_err() {
        out.lack();
    }
}

/// What the program's words ask for: `command WORD ..`.
pub(crate) fn answer_command(alloc: Global, words: &mut Words<'_>, out: &mut Line) {
    match list_of(alloc, words) {
        Ok(list) => put_command(read_command(&list), out),
        Err(fault) => out.fail(fault),
    }
}

fn list_of(alloc: Global, words: &mut Words<'_>) -> Result<Vec<String>, RowFault> {
    let mut list = Vec::new(alloc);
    for _word in 0..u8::MAX {
        if words.is_at_end() {
            break;
        }
        list.push(String::from_str(alloc, words.next())?)?;
    }
    Ok(list)
}

fn put_command(command: Option<Command>, out: &mut Line) {
    match command {
        Some(Command::Exchange) => out.put("exchange"),
        Some(Command::Make { count, seed }) => out.put_form("make #, seed #", &[count, seed]),
        Some(Command::Workers { count }) => out.put_form("workers #", &[count]),
        Some(Command::Tokens) => out.put("tokens"),
        None => out.put("none"),
    }
}
