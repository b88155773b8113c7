//! What scripts and commands say, and reports. In a row `|` stands for the end of a line.
use crate::say::{Line, find};
use http::StatusCode;
use qh_base::Memory;
use qh_script::{
    Config, Script, ScriptError, TokenCommands, enough, put_entries, put_report, read_script,
    read_tokens,
};
use qh_service::{Entry, Message};
use qh_spec::{Select, Side, Upset};
use row_text::{RowFault, Words};
use std::alloc::Global;

// What is told of a text.
#[derive(Clone, Copy)]
enum Told {
    Config,
    Fixed,
    Schedule,
    Enough,
    Commands,
    Report,
    Entries,
}

const TEXTS: [(&str, Told); 7] = [
    ("config", Told::Config),
    ("fixed", Told::Fixed),
    ("schedule", Told::Schedule),
    ("enough", Told::Enough),
    ("commands", Told::Commands),
    ("report", Told::Report),
    ("entries", Told::Entries),
];

/// Answers a row whose last argument is a text.
pub(crate) fn answer(alloc: Global, word: &str, words: &mut Words<'_>, out: &mut Line) {
    match find(&TEXTS, word) {
        Some(Told::Commands) => answer_commands(alloc, words.rest(), out),
        Some(Told::Report) => answer_read(alloc, Told::Report, words.next(), words, out),
        Some(Told::Entries) => answer_read(alloc, Told::Entries, words.next(), words, out),
        Some(told) => answer_read(alloc, told, "", words, out),
        None => out.refuse(),
    }
}

// Tells of a script, or why it is refused.
fn answer_read(alloc: Global, told: Told, streams: &str, words: &mut Words<'_>, out: &mut Line) {
    match script_of(alloc, words.rest()) {
        Ok(Ok(script)) => answer_script(alloc, told, streams, &script, out),
        Ok(Err(error)) => put_refusal(error, out),
        Err(fault) => out.fail(fault),
    }
}

fn script_of(alloc: Global, row: &str) -> Result<Result<Script, ScriptError>, RowFault> {
    let text = text_of(alloc, row)?;
    Ok(read_script(alloc, &text))
}

// The bytes of a text, with the ends of lines.
fn text_of(alloc: Global, row: &str) -> Result<Vec<u8>, Memory> {
    let mut text = row.as_bytes().to_vec(alloc)?;
    for byte in text.iter_mut() {
        if *byte == b'|' {
            *byte = b'\n';
        }
    }
    Ok(text)
}

fn put_refusal(error: ScriptError, out: &mut Line) {
    match error {
        ScriptError::Refused(line) => out.put_form("line #", &[line as u64]),
        ScriptError::Memory => out.lack(),
    }
}

fn answer_script(alloc: Global, told: Told, streams: &str, script: &Script, out: &mut Line) {
    match told {
        Told::Config => put_config(&script.config, out),
        Told::Fixed => put_fixed(&script.config, out),
        Told::Schedule => put_schedule(script, out),
        Told::Enough => out.put_number(enough(&script.config, &script.requests)),
        Told::Report => put_report_of(alloc, streams, &script.requests, out),
        _ => put_entries_of(alloc, streams, &script.requests, out),
    }
}

// Appends the settings that lines set.
fn put_config(config: &Config, out: &mut Line) {
    out.put_form(
        "section # requestbody # response # cap # bidi # windows # # idle ",
        &[
            config.max_field_section_size,
            config.max_request_body,
            config.max_response_body,
            config.max_requests,
            config.max_bidi,
            config.receive_window,
            config.stream_window,
        ],
    );
    match config.idle {
        Some(idle) => out.put_number(idle.0),
        None => out.put("none"),
    }
    out.put_form(" rtt #", &[config.initial_rtt.0]);
    out.put_either(config.retry, " retry", "");
    out.put_either(config.send_grease, " grease", "");
}

// Appends the settings that no line sets.
fn put_fixed(config: &Config, out: &mut Line) {
    let ids = [config.local_id_len, config.first_id_len];
    out.put_form("ids # # versions", &ids);
    for version in &config.versions {
        out.put_form(" #", &[u64::from(*version)]);
    }
    out.put_form(
        " version # uni # send # first # incoming # # # token # reset #",
        &[
            u64::from(config.version),
            config.max_uni,
            config.send_window,
            config.initial_window,
            config.max_incoming,
            config.incoming_buffer_size,
            config.incoming_buffer_size_total,
            config.retry_token_lifetime.0,
            config.min_reset_interval.0,
        ],
    );
}

// Appends how many requests there are, the rounds, the step and the schedule.
fn put_schedule(script: &Script, out: &mut Line) {
    out.put_form("requests #", &[script.requests.len() as u64]);
    out.put_some(", rounds ", script.rounds);
    out.put_form(", step #", &[script.step]);
    for upset in &script.schedule {
        out.put(", ");
        put_upset(upset, out);
    }
}

fn put_upset(upset: &Upset, out: &mut Line) {
    match upset {
        Upset::Lose(which) => put_select("lose", *which, out),
        Upset::Twice(which) => put_select("twice", *which, out),
        Upset::Late(which, rounds) => {
            put_select("late", *which, out);
            out.put_form(" by #", &[*rounds]);
        }
        Upset::Fail(number) => out.put_form("fail #", &[*number]),
        Upset::Forge { round, side, bytes } => {
            out.put_form("forge # ", &[*round]);
            out.put(match side {
                Side::Client => "client ",
                Side::Server => "server ",
            });
            out.put_hex(bytes);
        }
    }
}

fn put_select(word: &str, which: Select, out: &mut Line) {
    out.put(word);
    match which {
        Select::One(number) => out.put_form(" one #", &[number]),
        Select::All => out.put(" all"),
        Select::Each(number) => out.put_form(" each #", &[number]),
    }
}

// Appends the limits and the tokens of commands.
fn answer_commands(alloc: Global, row: &str, out: &mut Line) {
    match commands_of(alloc, row) {
        Ok(Ok(commands)) => put_commands(&commands, out),
        Ok(Err(error)) => put_refusal(error, out),
        Err(fault) => out.fail(fault),
    }
}

fn commands_of(alloc: Global, row: &str) -> Result<Result<TokenCommands, ScriptError>, RowFault> {
    let text = text_of(alloc, row)?;
    Ok(read_tokens(alloc, &text))
}

fn put_commands(commands: &TokenCommands, out: &mut Line) {
    let k_num = u64::from(commands.limits.k_num);
    out.put_form("bytes #, k #", &[commands.limits.max_bytes as u64, k_num]);
    for token in &commands.tokens {
        out.put_form(
            ", token # # #",
            &[token.nonce, token.issued.0, token.lifetime.0],
        );
    }
}

// Appends the report of entries on these streams, which have the requests in order, and of an answer for each.
fn put_report_of(alloc: Global, streams: &str, requests: &[Message], out: &mut Line) {
    match entries_of(alloc, streams, requests) {
        Ok(entries) => put_report_on(alloc, &entries, out),
        Err(fault) => out.fail(fault),
    }
}

fn put_report_on(alloc: Global, entries: &[Entry], out: &mut Line) {
    match answers_of(alloc, entries.len()) {
        Ok(answers) => put_report_lines(alloc, entries, &answers, out),
        Err(_) => out.lack(),
    }
}

fn put_report_lines(alloc: Global, entries: &[Entry], answers: &[Message], out: &mut Line) {
    let mut text = Vec::new(alloc);
    out.note(put_report(alloc, &mut text, entries, answers));
    put_lines(&text, out);
}

// Appends the entries on these streams.
fn put_entries_of(alloc: Global, streams: &str, requests: &[Message], out: &mut Line) {
    match entries_of(alloc, streams, requests) {
        Ok(entries) => put_entries_lines(alloc, &entries, out),
        Err(fault) => out.fail(fault),
    }
}

fn put_entries_lines(alloc: Global, entries: &[Entry], out: &mut Line) {
    let mut text = Vec::new(alloc);
    out.note(put_entries(alloc, &mut text, entries));
    put_lines(&text, out);
}

// So many answers, whose bodies are the letters from `a` on.
fn answers_of(alloc: Global, count: usize) -> Result<Vec<Message>, Memory> {
    let mut answers = Vec::new(alloc);
    for place in 0..count {
        let letter = b"abcdefgh".get(place).copied().unwrap_or(b'z');
        answers.push(answer_of(alloc, letter)?)?;
    }
    Ok(answers)
}

fn answer_of(alloc: Global, letter: u8) -> Result<Message, Memory> {
    let mut answer = Message::response(alloc, StatusCode::OK)?;
    answer.set_body(&[letter])?;
    Ok(answer)
}

// An entry for each request, on the stream that stands at its place between commas.
fn entries_of(alloc: Global, streams: &str, requests: &[Message]) -> Result<Vec<Entry>, RowFault> {
    let mut entries = Vec::new(alloc);
    let mut left = streams;
    for request in requests {
        let (stream, rest) = left.split_once(',').unwrap_or((left, ""));
        left = rest;
        push_entry(alloc, &mut entries, stream, request)?;
    }
    Ok(entries)
}

fn push_entry(
    alloc: Global,
    entries: &mut Vec<Entry>,
    stream: &str,
    request: &Message,
) -> Result<(), RowFault> {
    let Ok(stream) = stream.parse::<u64>() else {
        return Err(RowFault::Form);
    };
    entries.push(entry_of(alloc, stream, request)?)?;
    Ok(())
}

fn entry_of(alloc: Global, stream: u64, request: &Message) -> Result<Entry, Memory> {
    let response = answer_of(alloc, b'-')?;
    Ok(Entry {
        stream,
        request: request.try_clone(alloc)?,
        response,
    })
}

// Appends a text in one line: `|` stands for the end of a line.
fn put_lines(text: &[u8], out: &mut Line) {
    for byte in text {
        out.put_byte(if *byte == b'\n' { b'|' } else { *byte });
    }
}
