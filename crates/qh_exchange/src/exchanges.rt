ghost use Rattle.std.specs.Prelude.{◌≡◌, ◌≢◌, ◌⊎◌, ◌<◌, ◌^◌, ◌++◌, [], ℕ, false, List, Some, Ok, Err, length, map, IfOk, IfErr, IsOk};
ghost use Rattle.qh_plain.specs.Undecided.{IsUndecidedList};
ghost use Rattle.qh_spec.specs.declared.link.Event.{Event};
ghost use Rattle.qh_spec.specs.Config.{Fits};
ghost use Rattle.qh_spec.specs.Fault.{CountsFaults};
ghost use Rattle.qh_spec.specs.Headline.{ServedOnce, AnsweredOnce};
ghost use Rattle.qh_spec.specs.Honest.{IsHonest};
ghost use Rattle.qh_spec.specs.Validity.{IsFaultIndex, IsValidList};
ghost use Rattle.qh_pair.specs.Errors.{IfInvalid, IfLink, IfMemory, IfOutOfRounds, IfProtocol, IfTimedOut};
ghost use Rattle.qh_exchange.specs.Exchange.{IsInvalidAnswer, IsListError};
ghost use Rattle.qh_pair.specs.Clock.{IsClocked};
ghost use Rattle.qh_pair.specs.Pair.{KeepWithin};
ghost use Rattle.qh_pair.specs.Asked.{IsAsked};
ghost use Rattle.qh_exchange.specs.Rounds.{AreFair, RoundsMade};
ghost use Rattle.qh_roles.specs.Client.{held};
ghost use Rattle.qh_pair.specs.Hellos.{AreGreetedAsSet, AreGreetedFirst, AreSaidAsSet, HaveIdsOfLength, LeaveIdleTime};
ghost use Rattle.qh_pair.specs.Settings.{conn_config, limits_of, whole_idle};
ghost use Rattle.qh_pair.specs.Sound.{EndsFairly};
ghost use Rattle.qh_pair.specs.Turn.{AddsFault, HasWaitedFor, RanOut, WasIdle, WasLost, has_link_failed};
ghost use Rattle.qh_roles.specs.Server.{GrewByAnswers};

use crate::{Config, ExchangeError, Link, Message, Pair, Service, pairs, valid};
use std::alloc::Global;

/// Exchanges requests for answers between a client and a server over a link, in at most so many rounds: `answers[i]`
/// answers `requests[i]`, which goes on stream `4*i`. A list that isn't valid is refused before anything is sent; an empty list is
/// answered at once, with nothing sent. Then the first answer that a turn gives counts, and last `OutOfRounds`, after exactly
/// so many rounds.
pub fn exchange<V: Service, L: Link>(
    alloc: Global,
    config: &Config,
    service: &mut V,
    link: &mut L,
    requests: &[Message],
    rounds: u64,
) -> Result<Vec<Message>, ExchangeError>
    requires config { Fits config.now }
    requires rounds { rounds < 2 ^ 48 }
    // Over a fresh honest link, answers mean that each request was served exactly once, as asked, that its answer is the
    // one recorded, and that both were whole in the datagrams given to their readers.
    ensures answered_once { (events : List Event) → L.events link.old ≡ Some [] → L.events link.new ≡ Some events → IsHonest events
        → IfOk result (λ answers. AnsweredOnce config.now.local_id_len events requests.now (V.served service.old) (V.served service.new) answers.items) }
    // Whatever is answered, no request was served twice or altered, and each that was served was whole in the datagrams
    // given to the server.
    ensures never_twice { (events : List Event) → L.events link.old ≡ Some [] → L.events link.new ≡ Some events → IsHonest events
        → ServedOnce config.now.local_id_len events requests.now (V.served service.old) (V.served service.new) }
    // Over a fresh honest link no connection is lost but by its idle time or for want of memory, and by its idle time only if nothing that
    // counts came for as long, rounded down to whole milliseconds.
    ensures fair { (events : List Event) → L.events link.old ≡ Some [] → L.events link.new ≡ Some events → IsHonest events
        → EndsFairly config.now.local_id_len (conn_config config.now).idle events result }
    // If the events of this call are honest, both ends were greeted before the first datagram of an end that has a 1-RTT packet, and so
    // before a byte of a stream.
    ensures greeted_first { (before more : List Event) → L.events link.old ≡ Some before → L.events link.new ≡ Some (before ++ more) → IsHonest more
        → AreGreetedFirst config.now.local_id_len more }
    // If they are, each hello that came to an end whole says what the settings do. So does each that an end sent, over any link.
    ensures greeted_as_set { (before more : List Event) → L.events link.old ≡ Some before → L.events link.new ≡ Some (before ++ more) → IsHonest more
        → AreGreetedAsSet config.now.local_id_len (conn_config config.now) more }
    ensures sent_as_set { (before more : List Event) → L.events link.old ≡ Some before → L.events link.new ≡ Some (before ++ more)
        → AreSaidAsSet config.now.local_id_len (conn_config config.now) more }
    // Whatever is answered, over any link that tells its events and gives no whole hello with an id of another length, the STREAM and
    // RESET_STREAM frames of each datagram that an end sent kept within what was announced to it before.
    ensures within_announced { (before more : List Event) → L.events link.old ≡ Some before → L.events link.new ≡ Some (before ++ more)
        → HaveIdsOfLength config.now.local_id_len more → KeepWithin config.now.local_id_len more }
    // A link that told its events tells them still.
    ensures told { (events : List Event) → L.events link.old ≡ Some events → (more : List Event) × (L.events link.new ≡ Some (events ++ more)) }
    ensures plan { L.plan link.new ≡ L.plan link.old }
    ensures count { IfOk result (λ answers. length answers.items ≡ length requests.now) }
    // A list that isn't valid is refused with the least index at fault; nothing was sent or served.
    ensures invalid { IfInvalid result (λ index. IsFaultIndex config.now.max_requests config.now.max_field_section_size config.now.max_request_body requests.now index
        × (link.new ≡ link.old) × (service.new ≡ service.old)) }
    // Such a list is refused. `Memory` is answered of it only where it takes memory to tell: at a request whose path is shown as `/`
    // and may be empty, and each before it may be asked.
    ensures not_valid { (IsValidList config.now.max_requests config.now.max_field_section_size config.now.max_request_body requests.now → ⊥)
        → IsInvalidAnswer result (IsUndecidedList config.now.max_requests config.now.max_field_section_size config.now.max_request_body requests.now)
        × (link.new ≡ link.old) × (service.new ≡ service.old) }
    ensures empty { requests.now ≡ [] → IsOk result × (link.new ≡ link.old) × (service.new ≡ service.old) }
    // Each response that was recorded is one that the service may give to its request.
    ensures answers { GrewByAnswers (V.may_answer (limits_of config.now)) (V.served service.old) (V.served service.new) }
    ensures cause { CountsFaults (L.faults link.old) (L.faults link.new) (has_link_failed result) }
    ensures fault { IfLink result (AddsFault (L.events link.old) (L.events link.new)) }
    // Over any link that tells its events and gives no whole hello that puts a shorter idle time in force, an end that timed out waited for the
    // idle time of the settings, rounded down to whole milliseconds, from the first round of this call on.
    ensures timed_out { (before more : List Event) → L.events link.old ≡ Some before → L.events link.new ≡ Some (before ++ more)
        → LeaveIdleTime config.now.local_id_len (conn_config config.now) more
        → IfTimedOut result (WasIdle (whole_idle (conn_config config.now).idle) (L.moments link.old) (L.moments link.new)) }
    // Over any link it waited for that idle time, or for the one that some hello put in force.
    ensures waited { IfTimedOut result (HasWaitedFor (conn_config config.now).idle (L.moments link.old) (L.moments link.new)) }
    ensures lost { IfProtocol result (WasLost config.now.local_id_len (conn_config config.now) requests.now (L.events link.old) (L.events link.new) (V.served service.old) (V.served service.new)) }
    ensures out_of_rounds { IfOutOfRounds result
        (RanOut config.now.local_id_len (conn_config config.now) rounds requests.now (L.events link.old) (L.events link.new) (L.moments link.old) (L.moments link.new) (V.served service.old) (V.served service.new)) }
{
    if requests.is_empty() {
        return Ok(Vec::new(alloc));
    }
    let mut pair = valid_pair(alloc, config, requests)?;
    pairs();
    let made = make_rounds(&mut pair, service, link, rounds);
    pair.end(made)
}

// A pair before its first turn, with copies of these requests, where they are valid.
fn valid_pair(alloc: Global, config: &Config, requests: &[Message]) -> Result<Pair, ExchangeError>
    requires config { Fits config.now }
    requires some { requests.now ≢ [] }
    ensures asked { IfOk result (IsAsked config.now.local_id_len (conn_config config.now) (limits_of config.now) requests.now) }
    ensures valid { IfOk result (λ _. IsValidList config.now.max_requests config.now.max_field_section_size config.now.max_request_body requests.now) }
    ensures invalid { IfInvalid result (λ index. IsFaultIndex config.now.max_requests config.now.max_field_section_size config.now.max_request_body requests.now index) }
    ensures memory { IfMemory result (IsValidList config.now.max_requests config.now.max_field_section_size config.now.max_request_body requests.now
        ⊎ IsUndecidedList config.now.max_requests config.now.max_field_section_size config.now.max_request_body requests.now) }
    ensures errors { IfErr result IsListError }
{
    valid(config, requests)?;
    Ok(Pair::asking(alloc, config, requests)?)
}

// Makes rounds until an answer is held for each request. `OutOfRounds` comes after exactly so many.
fn make_rounds<V: Service, L: Link>(
    pair: &mut Pair,
    service: &mut V,
    link: &mut L,
    rounds: u64,
) -> Result<(), ExchangeError>
    requires going { pair.old.is_over ≡ false }
    requires lacks { held pair.old.client.answers ≢ length pair.old.client.requests }
    requires clocked { IsClocked pair.old [] }
    ensures fair { AreFair pair.old (L.events link.old) (L.events link.new) (V.served service.old) result }
    ensures made { RoundsMade rounds pair.old pair.new (L.events link.old) (L.events link.new) (L.moments link.old) (L.moments link.new) (V.served service.old) (V.served service.new) result }
    ensures cause { CountsFaults (L.faults link.old) (L.faults link.new) (has_link_failed result) }
    ensures fault { IfLink result (AddsFault (L.events link.old) (L.events link.new)) }
    ensures plan { L.plan link.new ≡ L.plan link.old }
    ensures answered { GrewByAnswers (V.may_answer pair.old.server.limits) (V.served service.old) (V.served service.new) }
{
    for _round in 0..rounds {
        if pair.turn(service, link)? {
            return Ok(());
        }
    }
    pair.is_within();
    Err(ExchangeError::OutOfRounds)
}
