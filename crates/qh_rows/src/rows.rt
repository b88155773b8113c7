//! What the events of a run have: each message that was exchanged is whole in them.

ghost use Rattle.std.specs.Prelude.{◌≡◌, []};

use crate::tests::given_to;
use qh_base::{MemSink, MemSource, Side};
use qh_exchange::{Bench, Echo, ScriptLink, run};
use qh_plain::messages::is_whole;
use std::alloc::Global;
use std::test::Fail;

// How many bytes the ids of the default settings have.
const ID_LENGTH: usize = 8;

const GET: &[u8] = b"section 4096\nresponse 1000\nrequest GET https://a.test/\n";

const POSTS: &[u8] =
    b"request POST https://a.test/1\nfill 0\nrequest POST https://a.test/2\nfill 1\nrequest POST https://a.test/3\nfill 5000\n";

// What a run of the word `exchange` over a script of these two parts leaves on its bench.
fn run_of(alloc: Global, front: &[u8], rest: &[u8]) -> Result<Bench<Echo, ScriptLink>, Fail> {
    let mut script = front.to_vec(alloc)?;
    script.extend_from_slice(rest)?;
    let words = vec![in alloc; String::from_str(alloc, "exchange")?]?;
    let mut source = MemSource::new(script, None);
    let mut sink = MemSink::new(alloc, 100_000, None)?;
    let mut bench = Bench {
        service: Echo::new(alloc),
        link: ScriptLink::new(alloc, 10),
    };
    let _status = started(alloc, &words, &mut source, &mut sink, &mut bench);
    Ok(bench)
}

// The run, without its contract.
fn started(
    alloc: Global,
    words: &[String],
    source: &mut MemSource,
    sink: &mut MemSink,
    bench: &mut Bench<Echo, ScriptLink>,
) -> u8
    requires { bench.old.service ≡ [] }
{
    run(alloc, words, source, sink, bench)
}

// The plain programs find each request whole in what the server was given, and each response in what the client was given.
#[test]
fn what_is_told_is_whole(rt: HostRuntime) -> Result<(), Fail> {
    let alloc = rt.alloc();
    assert!(rt; is_whole_both_ways(alloc, GET, b"")?);
    assert!(rt; is_whole_both_ways(alloc, GET, b"twice all\nlate each 3 2\n")?);
    assert!(rt; is_whole_both_ways(alloc, POSTS, b"bidi 1\nwindow 1200\n")?);
    Ok(())
}

fn is_whole_both_ways(alloc: Global, front: &[u8], rest: &[u8]) -> Result<bool, Fail> {
    let bench = run_of(alloc, front, rest)?;
    let to_server = given_to(alloc, Side::Server, bench.link.events())?;
    let to_client = given_to(alloc, Side::Client, bench.link.events())?;
    for entry in bench.service.served() {
        if !is_whole(
            alloc,
            ID_LENGTH,
            &to_server,
            Side::Client,
            entry.stream,
            &entry.request,
        )? {
            return Ok(false);
        }
        if !is_whole(
            alloc,
            ID_LENGTH,
            &to_client,
            Side::Server,
            entry.stream,
            &entry.response,
        )? {
            return Ok(false);
        }
    }
    Ok(!bench.service.served().is_empty())
}
