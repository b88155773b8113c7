ghost use Rattle.std.specs.Prelude.{◌≡◌, min};
ghost use Rattle.qh_spec.specs.Service.{echo};

use crate::rough::{Fate, Rough};
use bytes::Bytes;
use http::Method;
use http_uri::Uri;
use qh_base::{Memory, Side};
use qh_exchange::{Echo, Event, Limits, Message, ScriptLink, Service, default_config, exchange};
use qh_plain::messages::is_whole;
use std::alloc::Global;
use std::test::Fail;

// How many bytes the ids of the default settings have.
const ID_LENGTH: usize = 8;

fn get(alloc: Global, target: &str) -> Result<Message, Fail> {
    let uri = Uri::from_str(alloc, target)?;
    Ok(Message::request(alloc, Method::GET, uri)?)
}

// What a side was given on a link.
pub(crate) fn given_to(alloc: Global, side: Side, events: &[Event]) -> Result<Vec<Bytes>, Fail> {
    let mut datagrams = Vec::new(alloc);
    for event in events {
        if let Event::Given {
            side: reader,
            datagram,
        } = event
        {
            if *reader == side {
                datagrams.push(datagram.clone()?)?;
            }
        }
    }
    Ok(datagrams)
}

// A request is exchanged over a link in memory, and the plain programs find it whole in the datagrams that the server
// was given, and its answer in those that the client was given: on no other stream, and no other message.
#[test]
fn what_is_exchanged_is_whole(rt: HostRuntime) -> Result<(), Fail> {
    let alloc = rt.alloc();
    let mut service = Echo::new(alloc);
    let mut link = ScriptLink::new(alloc, 10);
    let config = default_config(alloc)?;
    let mut requests = Vec::new(alloc);
    requests.push(get(alloc, "https://a.test/")?)?;
    let answers = exchange(alloc, &config, &mut service, &mut link, &requests, 10)?;
    assert_eq!(rt; answers.len(), 1);
    let answer = answers.first().ok_or("no answer")?;
    let request = get(alloc, "https://a.test/")?;
    let to_server = given_to(alloc, Side::Server, link.events())?;
    let to_client = given_to(alloc, Side::Client, link.events())?;
    assert!(rt; is_whole(alloc, ID_LENGTH, &to_server, Side::Client, 0, &request)?);
    assert!(rt; is_whole(alloc, ID_LENGTH, &to_client, Side::Server, 0, answer)?);
    assert!(rt; !is_whole(alloc, ID_LENGTH, &to_server, Side::Client, 4, &request)?);
    assert!(rt; !is_whole(alloc, ID_LENGTH, &to_server, Side::Server, 0, &request)?);
    assert!(rt; !is_whole(alloc, ID_LENGTH, &to_client, Side::Client, 0, &request)?);
    let other = get(alloc, "https://b.test/")?;
    assert!(rt; !is_whole(alloc, ID_LENGTH, &to_server, Side::Client, 0, &other)?);
    Ok(())
}

// A service that echoes three bytes at most.
#[derive(Drop)]
struct Brief(Echo);

impl Service for Brief {
    ghost served = { λ s. s.0 };

    ghost may_answer = { λ limits request response. response ≡ echo (min limits.max_response_body 3) request };

    fn serve(
        &mut self,
        alloc: Global,
        stream: u64,
        request: &Message,
        limits: &Limits,
    ) -> Result<Message, Memory> {
        let limits = Limits {
            max_field_section_size: limits.max_field_section_size,
            max_response_body: limits.max_response_body.min(3),
        };
        self.0.serve(alloc, stream, request, &limits)
    }
}

// How a request ends over a rough link: how many answers there are and how many entries, and whether the request was
// whole in what the server was given, and the answer, if there is one, in what the client was given.
fn ended(alloc: Global, fates: &[Fate]) -> Result<(usize, usize, bool, bool), Fail> {
    let mut service = Brief(Echo::new(alloc));
    let mut link = Rough::new(alloc, fates.to_vec(alloc)?);
    let config = default_config(alloc)?;
    let requests = vec![in alloc; get(alloc, "https://a.test/")?]?;
    let answers = exchange(alloc, &config, &mut service, &mut link, &requests, 9).unwrap_or(
        Vec::new(alloc),
    );
    let to_server = given_to(alloc, Side::Server, link.events())?;
    let to_client = given_to(alloc, Side::Client, link.events())?;
    let request = get(alloc, "https://a.test/")?;
    let asked = is_whole(alloc, ID_LENGTH, &to_server, Side::Client, 0, &request)?;
    let answered = match answers.first() {
        Some(answer) => {
            answer.body() == b"GET".as_slice()
                && is_whole(alloc, ID_LENGTH, &to_client, Side::Server, 0, answer)?
        }
        None => false,
    };
    Ok((answers.len(), service.0.served().len(), asked, answered))
}

// Over a link that loses, repeats and reorders, a request is served once where it comes, and answered where its answer
// comes, as the plain programs find on the link's events.
#[test]
fn a_rough_link_is_met(rt: HostRuntime) -> Result<(), Fail> {
    let alloc = rt.alloc();
    // The first two datagrams are the hellos, the third has the request, and the fourth the answer.
    let rows: [(&[Fate], (usize, usize, bool, bool)); 7] = [
        (&[], (1, 1, true, true)),
        (&[Fate::Twice, Fate::Twice], (1, 1, true, true)),
        (&[Fate::First, Fate::First], (1, 1, true, true)),
        (&[Fate::Lost], (0, 0, false, false)),
        (&[Fate::Twice, Fate::Lost], (0, 0, false, false)),
        (
            &[Fate::Twice, Fate::Twice, Fate::Lost],
            (0, 0, false, false),
        ),
        (
            &[Fate::Twice, Fate::Twice, Fate::Twice, Fate::Lost],
            (0, 1, true, false),
        ),
    ];
    for (fates, expected) in &rows {
        assert!(rt; ended(alloc, fates)? == *expected);
    }
    Ok(())
}
