ghost use Rattle.std.specs.Prelude.{◌≡◌, ◌⊎◌, ◌<◌, ◌^◌, [], ℕ, List, map, string_bytes, All, IfOk, IfErr};
ghost use Rattle.qh_link.specs.ScriptLink.{PlainLink};
ghost use Rattle.qh_spec.specs.Record.{PlainEntry};
ghost use Rattle.qh_spec.specs.Config.{Fits};
ghost use Rattle.qh_spec.specs.Echoed.{HasMaps};
ghost use Rattle.qh_spec.specs.Script.{Script as PlainScript, IsScript, IsRefusedAt, rounds_of};
ghost use Rattle.qh_spec.specs.Words.{Exchange, IsCommand};
ghost use Rattle.qh_exchange.specs.Ending.{status_of, text_of};
ghost use Rattle.qh_exchange.specs.Endings.{EndsAnswered, EndsFailed, IsRunAs};
ghost use Rattle.qh_exchange.specs.Program.{AreLookedAt, Ends, HasEnded, IsAnswered, IsAsAtEntry, ScriptEnds, TextEnds};

use crate::ending::{Ending, Outcome};
use crate::input::read_text;
use crate::output::write_ending;
use crate::script::unbuilt_line;
use crate::tokens::run_tokens;
use crate::{Config, Echo, ExchangeError, Message, ScriptLink, enough, exchange};
use qh_base::{Memory, Sink, Source};
use qh_script::{Command, Script, ScriptError, put_entries, put_report, read_command, read_script};
use std::alloc::Global;

/// A service and a link, which a run uses and leaves to be looked at.
#[derive(Drop)]
pub struct Bench<V, L> {
    pub service: V,
    pub link: L,
}

// One more than the greatest number of rounds.
const MAX_ROUNDS: u64 = 1 << 48;

/// Does what the program's words ask for, with its input and its output, and answers its status: 0 where every request
/// has its answer, or where each token was looked at, 2 for other words, 3 for a script or for commands that are refused,
/// 4 to 8 for an exchange that failed, 9 for want of memory, 10 and 11 for a fault of the input and of the output, 12 for
/// what isn't built yet. Before the last line of status 0 stands the report, or the line of each token, before that of 4
/// to 9 the entries of the record, or the line `unlisted` in their place: no clause says that memory was wanting for them then.
///
/// The service has served nothing. `exchange` puts a new link into the bench for a script that is taken; else the bench stays as it is.
pub fn run<S: Source, K: Sink>(
    alloc: Global,
    words: &[String],
    source: &mut S,
    sink: &mut K,
    bench: &mut Bench<Echo, ScriptLink>,
) -> u8
    requires { bench.old.service ≡ [] }
    // Each status comes by its row of `Ends` alone. With 11 a prefix was written of a text that a row of `Ends` gives for this run.
    ensures ends { HasEnded (map string_bytes words.now) (S.left source.old) (S.left source.new) (S.faults source.old) (S.faults source.new) bench.old.link bench.new.link bench.new.service
        (K.written sink.old) (K.written sink.new) (K.faults sink.old) (K.faults sink.new) result }
    // Status 0 means that the input was read to its end, and either the words are `exchange`, the input is a script, its
    // requests were exchanged over the link on the bench, and their report was written and nothing else; or the words are
    // `tokens`, the input has commands on a token log, and the line of each token and their number were written and nothing
    // else.
    ensures answered { result ≡ 0 → IsAnswered (map string_bytes words.now) (S.left source.old) (S.left source.new) (K.written sink.old) (K.written sink.new) bench.new.link bench.new.service
        ⊎ AreLookedAt (map string_bytes words.now) (S.left source.old) (S.left source.new) (K.written sink.old) (K.written sink.new) }
    ensures unused { (IsCommand (map string_bytes words.now) Exchange → ⊥) → bench.new ≡ bench.old }
{
    let ending = ending_of(alloc, words, source, bench);
    write_ending(sink, &ending)
}

fn ending_of<S: Source>(
    alloc: Global,
    words: &[String],
    source: &mut S,
    bench: &mut Bench<Echo, ScriptLink>,
) -> Ending
    requires { bench.old.service ≡ [] }
    ensures ends { Ends (map string_bytes words.now) (S.left source.old) (S.left source.new) (S.faults source.old) (S.faults source.new) bench.old.link bench.new.link bench.new.service
        (status_of result.last) (text_of result) }
    ensures unused { (IsCommand (map string_bytes words.now) Exchange → ⊥) → bench.new ≡ bench.old }
{
    match read_command(words) {
        Some(Command::Exchange) => run_exchange(alloc, source, bench),
        Some(Command::Make { .. }) => Ending::bare(alloc, Outcome::Unbuilt),
        Some(Command::Workers { .. }) => Ending::bare(alloc, Outcome::Unbuilt),
        Some(Command::Tokens) => run_tokens(alloc, source),
        None => Ending::bare(alloc, Outcome::Unknown),
    }
}

fn run_exchange<S: Source>(
    alloc: Global,
    source: &mut S,
    bench: &mut Bench<Echo, ScriptLink>,
) -> Ending
    requires { bench.old.service ≡ [] }
    ensures { (words : List (List ℕ)) → IsCommand words Exchange → Ends words (S.left source.old) (S.left source.new) (S.faults source.old) (S.faults source.new)
        bench.old.link bench.new.link bench.new.service (status_of result.last) (text_of result) }
{
    match read_text(alloc, source) {
        Ok(Some(text)) => run_text(alloc, &text, bench),
        Ok(None) => Ending::bare(alloc, Outcome::ReadFault),
        Err(Memory) => Ending::bare(alloc, Outcome::Failed(ExchangeError::Memory)),
    }
}

fn run_text(alloc: Global, text: &[u8], bench: &mut Bench<Echo, ScriptLink>) -> Ending
    requires { bench.old.service ≡ [] }
    ensures { TextEnds text.now bench.old.link bench.new.link bench.new.service (status_of result.last) (text_of result) }
{
    match read_script(alloc, text) {
        Ok(script) => run_built(alloc, text, script, bench),
        Err(ScriptError::Refused(number)) => refusal(alloc, text, number),
        Err(ScriptError::Memory) => unread(alloc, text),
    }
}

// The line that is refused, unless one before it, or itself, isn't built.
fn refusal(alloc: Global, text: &[u8], number: usize) -> Ending
    requires { IsRefusedAt text.now number }
    ensures { (link_before link : PlainLink) (served : List PlainEntry) → IsAsAtEntry link_before link served → TextEnds text.now link_before link served (status_of result.last) (text_of result) }
{
    match unbuilt_line(text) {
        Some(unbuilt) if unbuilt <= number => Ending::bare(alloc, Outcome::Unbuilt),
        Some(_) => Ending::bare(alloc, Outcome::Refused(number)),
        None => Ending::bare(alloc, Outcome::Refused(number)),
    }
}

// A script that there is no memory for, unless a line of it isn't built.
fn unread(alloc: Global, text: &[u8]) -> Ending
    requires { (script : PlainScript) × IsScript text.now script }
    ensures { (link_before link : PlainLink) (served : List PlainEntry) → IsAsAtEntry link_before link served → TextEnds text.now link_before link served (status_of result.last) (text_of result) }
{
    match unbuilt_line(text) {
        Some(_) => Ending::bare(alloc, Outcome::Unbuilt),
        None => Ending::bare(alloc, Outcome::Failed(ExchangeError::Memory)),
    }
}

// Runs a script, unless a line of it isn't built.
fn run_built(
    alloc: Global,
    text: &[u8],
    script: Script,
    bench: &mut Bench<Echo, ScriptLink>,
) -> Ending
    requires served { bench.old.service ≡ [] }
    requires script { IsScript text.now script }
    ensures { TextEnds text.now bench.old.link bench.new.link bench.new.service (status_of result.last) (text_of result) }
{
    match unbuilt_line(text) {
        Some(_) => Ending::bare(alloc, Outcome::Unbuilt),
        None => run_script(alloc, script, bench),
    }
}

// Exchanges the requests of a script over a new link with its step and its schedule.
fn run_script(alloc: Global, script: Script, bench: &mut Bench<Echo, ScriptLink>) -> Ending
    requires served { bench.old.service ≡ [] }
    requires script { (text : List ℕ) × IsScript text script }
    ensures { ScriptEnds script bench.new.link bench.new.service (status_of result.last) (text_of result) }
{
    let rounds = rounds_for(&script);
    let Script {
        requests,
        config,
        rounds: _,
        step,
        schedule,
    } = script;
    bench.link = ScriptLink::scheduled(alloc, step, schedule);
    run_requests(alloc, &config, &requests, rounds, bench)
}

// How many rounds a script has at most: as it says, else as many as are enough.
fn rounds_for(script: &Script) -> u64
    ensures { result ≡ rounds_of script.now }
{
    match script.rounds {
        Some(rounds) => rounds,
        None => enough(&script.config, &script.requests).min(MAX_ROUNDS - 1),
    }
}

// Exchanges requests over the link on the bench, on which nothing happened yet.
fn run_requests(
    alloc: Global,
    config: &Config,
    requests: &[Message],
    rounds: u64,
    bench: &mut Bench<Echo, ScriptLink>,
) -> Ending
    requires served { bench.old.service ≡ [] }
    requires events { bench.old.link.events ≡ [] }
    requires faults { bench.old.link.faults ≡ 0 }
    requires fits { Fits config.now }
    requires rounds { rounds < 2 ^ 48 }
    requires maps { All HasMaps requests.now }
    ensures { (s : PlainScript) → IsRunAs s config.now requests.now rounds bench.old.link → ScriptEnds s bench.new.link bench.new.service (status_of result.last) (text_of result) }
{
    let ended = exchange(
        alloc,
        config,
        &mut bench.service,
        &mut bench.link,
        requests,
        rounds,
    );
    let _events = bench.link.events();
    conclude(alloc, ended, &bench.service)
}

// The report, or what was served and the error, by how an exchange ended.
fn conclude(alloc: Global, ended: Result<Vec<Message>, ExchangeError>, service: &Echo) -> Ending
    ensures answered { IfOk ended (λ answers. EndsAnswered service.now answers.items result) }
    ensures failed { IfErr ended (λ error. EndsFailed service.now error result) }
{
    match ended {
        Ok(answers) => report(alloc, &answers, service),
        Err(error) => failure(alloc, error, service),
    }
}

// The report, or want of memory for it.
fn report(alloc: Global, answers: &[Message], service: &Echo) -> Ending
    ensures { EndsAnswered service.now answers.now result }
{
    let mut text = Vec::new(alloc);
    match put_report(alloc, &mut text, service.served(), answers) {
        Ok(()) => Ending {
            text,
            last: Outcome::Done,
        },
        Err(Memory) => failure(alloc, ExchangeError::Memory, service),
    }
}

// The entries of the record where there is memory for them, and the error.
fn failure(alloc: Global, error: ExchangeError, service: &Echo) -> Ending
    ensures { EndsFailed service.now error result }
{
    let mut text = Vec::new(alloc);
    match put_entries(alloc, &mut text, service.served()) {
        Ok(()) => Ending {
            text,
            last: Outcome::Failed(error),
        },
        Err(Memory) => Ending::bare(alloc, Outcome::Unlisted(error)),
    }
}
