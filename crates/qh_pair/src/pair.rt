ghost use Rattle.std.specs.Prelude.{◌≡◌, ◌≢◌, ◌⊎◌, ◌≤◌, ◌<◌, ◌^◌, ◌↔◌, ◌++◌, ◌∷◌, [], ℕ, List, Option, Some, None, true, false, length, is_some, All, IfOk, IfErr, IsTrue, OnOk, map};
ghost use Rattle.qh_core.specs.Inner.{is_open};
ghost use Rattle.qh_conn.specs.declared.config.ConnConfig.{ConnConfig as AConfig};
ghost use Rattle.qh_pair.specs.Clock.{HasPassed, HasTimedOut, IsClocked, RunsByTheClock};
ghost use Rattle.qh_pair.specs.Ends.{End as AnEnd};
ghost use Rattle.qh_pair.specs.Asked.{IsAsked};
ghost use Rattle.qh_pair.specs.Errors.{EndsAs, IfLink, IfProtocol, IfTimedOut};
ghost use Rattle.qh_pair.specs.Pair.{AreGreeted, PairState, Running, GoesOn, IsFair, IsRunningSoundly, KeepsGreeted, Means, KeepWithin, id_length};
ghost use Rattle.qh_pair.specs.Hellos.{AreGreetedAsSet, AreSaidAsSet, HaveIdsOfLength, LeaveIdleTime};
ghost use Rattle.qh_pair.specs.Settings.{conn_config, limits_of, whole_idle};
ghost use Rattle.qh_pair.specs.Full.{ActOnceGreeted, AsksWhereItMay, HasAcceptedWhatArrived, IsFullTurn, ToldAsBefore};
ghost use Rattle.qh_pair.specs.Sound.{EndsFairly, last_of};
ghost use Rattle.qh_pair.specs.Steps.{AreIntakes, AreNotLost, AreOutputs, AreTicking, BeginsAt, ClientPolled, IsCounted, IsLastOf, IsLinkError, IsOnSide, IsOpen, IsStill, KeepsTicking, PairStep, ServerPolled, TicksOn, ended_by, is_done};
ghost use Rattle.qh_pair.specs.Turn.{Adds, AddsFault, IsNotLost, IsProtocolLoss, IsTurnError, has_link_failed};
ghost use Rattle.qh_roles.specs.Client.{AreAskable, Asking, held};
ghost use Rattle.qh_roles.specs.Server.{GrewByAnswers};
ghost use Rattle.qh_spec.specs.declared.link.Event.{Event};
ghost use Rattle.qh_spec.specs.declared.link.Event.TheVariants.{Round};
ghost use Rattle.qh_spec.specs.declared.sides.Side.TheVariants.{Client as TheClient, Server as TheServer};
ghost use Rattle.qh_spec.specs.Config.{Fits};
ghost use Rattle.qh_spec.specs.Fault.{CountsFaults};
ghost use Rattle.qh_spec.specs.Honest.{IsHonest};
ghost use Rattle.qh_spec.specs.Link.{moments_of};
ghost use Rattle.qh_spec.specs.Message.{PlainMessage};
ghost use Rattle.qh_spec.specs.Record.{PlainEntry};
ghost use Rattle.qh_spec.specs.Validity.{IsValidList};

use crate::ExchangeError;
use crate::ends::{End, Ids, MAX_NAME, Opening, open_end, receive_at, tick_at, transmit_at};
use qh_base::{ConnectionError, Memory, Moment, Side};
use qh_conn::{ConnConfig, same_connection};
use qh_converse::{converses, sends};
use qh_link::Link;
use qh_message::writable;
use qh_packet::{PlainSession, Version};
use qh_peers::honest_ends;
use qh_roles::{Client, Server};
use qh_script::Config;
use qh_service::{Head, Limits, Message, Service};
use qh_spec::laws::greetings::greeted_first;
use qh_streams::StreamLimits;
use std::alloc::Global;
use std::marker::Model;

// The name that a client asks for where the host can't be one.
const NO_NAME: &str = "-";

/// The two ends of an exchange, with the requests that the client asks and the answers that came.
#[derive(Drop)]
pub struct Pair {
    alloc: Global,
    ids: Ids,
    config: ConnConfig,
    client: Client,
    server: Server,
    client_end: Option<End>,
    server_end: Option<End>,
    is_over: bool,
}

impl Model for Pair {
    ghost use Rattle.std.specs.Prelude.{◌≡◌, length};
    ghost use Rattle.qh_pair.specs.Pair.{PairState};

    ghost Value = { PairState };

    ghost view = { λ p. record { ids = p.ids; config = p.config; client = p.client; server = p.server; client_end = p.client_end; server_end = p.server_end; is_over = p.is_over } };

    ghost use Rattle.qh_pair.specs.Steps.{HasRun};

    ghost invariant = { λ p. (length p.ids.server ≡ length p.ids.client)
        × HasRun (record { ids = p.ids; config = p.config; client = p.client; server = p.server; client_end = p.client_end; server_end = p.server_end; is_over = p.is_over }) };
}

/// What a pair means that stands where these events and entries leave it.
///
/// Over an honest link (`honest`): what it served and what it holds; that each hello which came says what the settings do; and that both ends
/// were greeted before either sent a 1-RTT packet. Of a pair that isn't over an end knows its peer, over such a link, once a datagram was given to it
/// that greets it: one with an Initial packet of the other's that has a CRYPTO frame, and a number below 2^31 that is above all those that came
/// before (`greeted`; where a turn fails, each end that knew its peer before still does, by `known` of `turn`). So behind a full turn a client to
/// which one was given has asked wherever its peer permits, and a server to which one was given has accepted each stream that arrived (`full`).
/// Over any link each hello that an end sent says what the settings do (`said`). If no hello came that has an id of another length, what was sent
/// in STREAM and RESET_STREAM frames kept within what was announced to its sender before (`within`). If none came that puts a shorter idle time in
/// force, an end that timed out waited for that of the settings, rounded down to whole milliseconds (`timed_out`). Hellos that say what the
/// settings do are such (`fitting`).
pub fn pairs()
    ensures honest { (p : PairState) (events : List Event) (before entries : List PlainEntry) → IsHonest events → Running p events entries
        → Means p events before entries }
    ensures greeted { (p : PairState) (events : List Event) (entries : List PlainEntry) → p.is_over ≡ false → IsHonest events → Running p events entries
        → AreGreeted p events }
    ensures full { (p : PairState) (events turn : List Event) (entries : List PlainEntry) → p.is_over ≡ false → IsHonest events → Running p events entries → IsFullTurn p turn
        → ActOnceGreeted p events }
    ensures within { (p : PairState) (events : List Event) (entries : List PlainEntry) → HaveIdsOfLength (id_length p) events → Running p events entries
        → KeepWithin (id_length p) events }
    ensures said { (p : PairState) (events : List Event) (entries : List PlainEntry) → Running p events entries → AreSaidAsSet (id_length p) p.config events }
    ensures fitting { (n : ℕ) (config : AConfig) (events : List Event) → AreGreetedAsSet n config events → HaveIdsOfLength n events × LeaveIdleTime n config events }
    ensures timed_out { (p : PairState) (events : List Event) (entries : List PlainEntry) (moments : List ℕ) → LeaveIdleTime (id_length p) p.config events
        → Running p events entries → HasTimedOut p moments → HasPassed (whole_idle p.config.idle) moments }
{
    converses::<PlainSession>();
    greeted_first();
}

impl Pair {
    /// A pair before anything passed. The client connects in the first turn, and the server's end opens by the client's first datagram.
    pub fn open_pair(alloc: Global, config: &Config, now: Moment) -> Result<Pair, Memory>
        requires { Fits config.now }
        ensures running { IfOk result (λ p. Running p [] []) }
        ensures clocked { IfOk result (λ p. IsClocked p []) }
        ensures ids { IfOk result (λ p. id_length p ≡ config.now.local_id_len) }
        ensures config { IfOk result (λ p. p.config ≡ conn_config config.now) }
        ensures limits { IfOk result (λ p. p.server.limits ≡ limits_of config.now) }
        ensures unasked { IfOk result (λ p. (p.client ≡ record { requests = []; next = 0; streams = []; answers = [] }) × (p.client_end ≡ None) × (p.is_over ≡ false)) }
    {
        let _opened = now;
        Ok(Pair::of_client(alloc, config, Client::new(alloc)))
    }

    /// A pair before its first turn whose client asks these requests, of which it has copies. They are valid, and aren't none.
    pub fn asking(alloc: Global, config: &Config, requests: &[Message]) -> Result<Pair, Memory>
        requires config { Fits config.now }
        requires some { requests.now ≢ [] }
        requires valid { IsValidList config.now.max_requests config.now.max_field_section_size config.now.max_request_body requests.now }
        ensures { IfOk result (IsAsked config.now.local_id_len (conn_config config.now) (limits_of config.now) requests.now) }
    {
        writable();
        let mut client = Client::new(alloc);
        client.ask(alloc, requests)?;
        Ok(Pair::of_client(alloc, config, client))
    }

    // A pair of this client, which opened no stream.
    fn of_client(alloc: Global, config: &Config, client: Client) -> Pair
        requires fits { Fits config.now }
        requires unopened { client.next ≡ 0 }
        requires asking { Asking client [] }
        requires places { length client.answers ≡ length client.requests }
        ensures running { Running result [] [] }
        ensures value { result ≡ record { ids = result.ids; config = conn_config config.now; client = client; server = result.server; client_end = None; server_end = None; is_over = false } }
        ensures ids { id_length result ≡ config.now.local_id_len }
        ensures limits { result.server.limits ≡ limits_of config.now }
    {
        Pair {
            alloc,
            ids: Ids::of(config.local_id_len, config.first_id_len),
            config: conn_config(config),
            client,
            server: Server::new(alloc, limits_of(config)),
            client_end: None,
            server_end: None,
            is_over: false,
        }
    }

    /// Takes copies of the requests. It is called once, before the first turn. Want of memory leaves the pair without requests.
    pub fn ask(&mut self, requests: &[Message]) -> Result<(), Memory>
        requires once { (self.old.client ≡ record { requests = []; next = 0; streams = []; answers = [] }) × (self.old.client_end ≡ None) }
        requires askable { AreAskable requests.now }
        ensures requests { IfOk result (λ _. self.new.client.requests ≡ requests.now) }
        ensures none { held self.new.client.answers ≡ 0 }
        ensures rest { self.new ≡ record self.old { client = self.new.client } }
        ensures running { (events : List Event) (entries : List PlainEntry) → Running self.old events entries → Running self.new events entries }
    {
        self.client.ask(self.alloc, requests)
    }

    /// How many answers are held.
    pub fn answers(&self) -> usize
        ensures { result ≡ held self.now.client.answers }
    {
        self.client.held()
    }

    /// Makes one turn, and says whether an answer is held for each request: the link begins a round; each end takes what came for it; what is
    /// due by now is done; the client asks and takes answers, and the server serves, once their ends are greeted; each end sends. How far a
    /// stream goes in one turn is in no clause. The client's end opens in the first turn, and the server's by the client's first datagram.
    ///
    /// It isn't called again after an `Err`. The errors: `Link` if the link failed; `TimedOut` if an end waited for its idle time; `Protocol` if an
    /// end lost its connection otherwise, which none does over an honest link; `Memory`.
    pub fn turn<V: Service, L: Link>(
        &mut self,
        service: &mut V,
        link: &mut L,
    ) -> Result<bool, ExchangeError>
        requires going { self.old.is_over ≡ false }
        ensures going { IfOk result (λ _. self.new.is_over ≡ false) }
        ensures goes_on { GoesOn self.old (L.events link.old) (V.served service.old) self.new (L.events link.new) (V.served service.new) }
        ensures clock { RunsByTheClock self.old self.new (L.moments link.old) (L.moments link.new) result }
        ensures requests { self.new.client.requests ≡ self.old.client.requests }
        ensures fair { IsFair self.old (L.events link.old) (L.events link.new) result }
        ensures settings { (self.new.config ≡ self.old.config) × (self.new.ids ≡ self.old.ids) × (self.new.server.limits ≡ self.old.server.limits) }
        // Also where the turn fails, an end that knew its peer still does.
        ensures known { KeepsGreeted self.old self.new }
        ensures done { IfOk result (λ done. IsTrue done ↔ held self.new.client.answers ≡ length self.new.client.requests) }
        ensures turned { IfOk result (λ _. Adds (IsFullTurn self.new) (L.events link.old) (L.events link.new)) }
        ensures round { IfOk result (λ _. (moment : ℕ) × (L.moments link.new ≡ L.moments link.old ++ moment ∷ [])) }
        ensures answered { GrewByAnswers (V.may_answer self.old.server.limits) (V.served service.old) (V.served service.new) }
        ensures cause { CountsFaults (L.faults link.old) (L.faults link.new) (has_link_failed result) }
        ensures fault { IfLink result (AddsFault (L.events link.old) (L.events link.new)) }
        ensures lost { IfProtocol result (λ e. IsProtocolLoss e self.new) }
        ensures plan { L.plan link.new ≡ L.plan link.old }
        ensures errors { IfErr result IsTurnError }
    {
        self.is_over = true;
        self.advance(service, link)?;
        self.is_over = false;
        Ok(self.client.held() == self.client.requests().len())
    }

    /// The answers, if turns were made until all are held, or the error that ended the turns.
    pub fn end(self, made: Result<(), ExchangeError>) -> Result<Vec<Message>, ExchangeError>
        ensures ends { EndsAs made result }
        ensures answers { IfOk result (λ answers. held self.client.answers ≡ length self.client.requests → map Some answers.items ≡ self.client.answers) }
    {
        match made {
            Ok(()) => Ok(self.into_answers()?),
            Err(error) => {
                // By a call, since a drop where a scope ends is proved field by field.
                drop(self);
                Err(error)
            }
        }
    }

    /// The answers, in the order of the requests, where all are held.
    pub fn into_answers(self) -> Result<Vec<Message>, Memory>
        ensures { IfOk result (λ all. held self.client.answers ≡ length self.client.requests → map Some all.items ≡ self.client.answers) }
    {
        let alloc = self.alloc;
        self.into_client().into_answers(alloc)
    }

    // The client, without its end.
    fn into_client(self) -> Client
        ensures { result ≡ self.client }
    {
        self.client
    }

    /// No more answers are held than there are requests.
    pub fn is_within(&self)
        ensures { held self.now.client.answers ≤ length self.now.client.requests }
    {
        let _client = &self.client;
    }

    // Makes the turn.
    fn advance<V: Service, L: Link>(
        &mut self,
        service: &mut V,
        link: &mut L,
    ) -> Result<(), ExchangeError>
        requires over { self.old.is_over ≡ true }
        requires counted { IsCounted self.old }
        ensures step { PairStep (last_of (L.moments link.new)) (is_done result) self.old self.new (L.events link.old) (L.events link.new) (V.served service.old) (V.served service.new) (λ more. IfOk result (λ _. IsFullTurn self.new more)) }
        ensures clock { (before moments : List ℕ) → L.moments link.old ≡ before ++ moments → AreTicking self.old moments → TicksOn self.old self.new before moments (L.moments link.new) result }
        ensures round { IfOk result (λ _. (moment : ℕ) × (L.moments link.new ≡ L.moments link.old ++ moment ∷ [])) }
        ensures cause { CountsFaults (L.faults link.old) (L.faults link.new) (has_link_failed result) }
        ensures fault { IfLink result (AddsFault (L.events link.old) (L.events link.new)) }
        ensures lost { IfProtocol result (λ e. IsProtocolLoss e self.new) }
        ensures plan { L.plan link.new ≡ L.plan link.old }
        ensures errors { IfErr result IsTurnError }
        ensures order { IfOk result (λ _. All (λ moment. moment ≤ last_of (L.moments link.new)) (L.moments link.new)) }
        ensures fair { (earlier events more : List Event) (entries : List PlainEntry) → IsRunningSoundly self.old events entries
            → L.events link.old ≡ Some (earlier ++ events) → L.events link.new ≡ Some (earlier ++ (events ++ more)) → IsHonest (events ++ more)
            → EndsFairly (id_length self.old) self.old.config.idle (events ++ more) result }
        ensures answered { GrewByAnswers (V.may_answer self.old.server.limits) (V.served service.old) (V.served service.new) }
    {
        let now = self.begin(link)?;
        self.receive(now, link)?;
        self.tick(now)?;
        self.converse(service)?;
        self.is_up();
        self.transmit(now, link)
    }

    // The client's end is open where it isn't lost: the contract of an end says so.
    fn is_up(&self)
        requires { AreNotLost self.now }
        ensures { (end : AnEnd) → self.now.client_end ≡ Some end → is_open end.core.state ≡ true }
    {
        if let Some(end) = &self.client_end {
            end.core.is_owed();
        }
    }

    // Begins a round, and opens the client's end in the first one.
    fn begin<L: Link>(&mut self, link: &mut L) -> Result<Moment, ExchangeError>
        requires over { self.old.is_over ≡ true }
        requires counted { IsCounted self.old }
        ensures step { (served : List PlainEntry) → PairStep (last_of (L.moments link.new)) (is_done result) self.old self.new (L.events link.old) (L.events link.new) served served
            (λ more. IfOk result (λ now. more ≡ Round now.0 ∷ [])) }
        ensures open { IfOk result (λ _. IsOpen self.new) }
        ensures bound { IfOk result (λ now. now.0 < 2 ^ 62) }
        ensures order { IfOk result (λ now. All (λ before. before ≤ now.0) (L.moments link.old)) }
        ensures clock { (before moments : List ℕ) → L.moments link.old ≡ before ++ moments → AreTicking self.old moments → BeginsAt self.new before moments (L.moments link.new) result }
        ensures round { IfOk result (λ now. L.moments link.new ≡ L.moments link.old ++ now.0 ∷ []) }
        ensures cause { CountsFaults (L.faults link.old) (L.faults link.new) (has_link_failed result) }
        ensures fault { IfLink result (AddsFault (L.events link.old) (L.events link.new)) }
        ensures plan { L.plan link.new ≡ L.plan link.old }
        ensures errors { IfErr result IsLinkError }
    {
        let now = link.next_round(self.alloc)?;
        self.open_client(now)?;
        Ok(now)
    }

    fn open_client(&mut self, now: Moment) -> Result<(), Memory>
        requires over { self.old.is_over ≡ true }
        requires counted { IsCounted self.old }
        ensures still { IsStill self.old self.new }
        ensures open { IfOk result (λ _. is_some self.new.client_end ≡ true) }
        ensures ticking { KeepsTicking now.0 self.old self.new }
    {
        if self.client_end.is_some() {
            return Ok(());
        }
        let opening = Opening {
            ids: self.ids,
            config: self.config,
        };
        let name = server_name(self.client.requests());
        let end = open_end(self.alloc, Side::Client, &opening, name, now)?;
        self.client_end = Some(end);
        Ok(())
    }

    // Each end takes what the link has for it.
    fn receive<L: Link>(&mut self, now: Moment, link: &mut L) -> Result<(), ExchangeError>
        requires open { IsOpen self.old }
        requires over { self.old.is_over ≡ true }
        requires counted { IsCounted self.old }
        ensures step { (served : List PlainEntry) → PairStep now.0 (is_done result) self.old self.new (L.events link.old) (L.events link.new) served served (λ more. IfOk result (λ _. AreIntakes self.new.ids (is_some self.new.server_end) more)) }
        ensures open { IfOk result (λ _. IsOpen self.new) }
        ensures ticking { IfOk result (λ _. KeepsTicking now.0 self.old self.new) }
        ensures moments { L.moments link.new ≡ L.moments link.old }
        ensures cause { CountsFaults (L.faults link.old) (L.faults link.new) (has_link_failed result) }
        ensures fault { IfLink result (AddsFault (L.events link.old) (L.events link.new)) }
        ensures plan { L.plan link.new ≡ L.plan link.old }
        ensures errors { IfErr result IsLinkError }
    {
        let opening = Opening {
            ids: self.ids,
            config: self.config,
        };
        let (client, server) = (&mut self.client_end, &mut self.server_end);
        receive_at(self.alloc, client, &opening, Side::Client, now, link)?;
        receive_at(self.alloc, server, &opening, Side::Server, now, link)
    }

    // Does what is due by now. An end that is lost ends the exchange, the client's first.
    fn tick(&mut self, now: Moment) -> Result<(), ExchangeError>
        requires open { IsOpen self.old }
        requires over { self.old.is_over ≡ true }
        requires counted { IsCounted self.old }
        requires bound { now.0 < 2 ^ 62 }
        ensures step { (told : Option (List Event)) (served : List PlainEntry) → PairStep now.0 (is_done result) self.old self.new told told served served (λ more. more ≡ []) }
        ensures open { IsOpen self.new }
        ensures there { is_some self.new.server_end ≡ is_some self.old.server_end }
        ensures going { IfOk result (λ _. AreNotLost self.new) }
        ensures fair { (events : List Event) (entries : List PlainEntry) → IsHonest events → IsRunningSoundly self.old events entries → last_of (moments_of events) ≡ now.0 → EndsFairly (id_length self.old) self.old.config.idle events result }
        ensures ticking { IfOk result (λ _. KeepsTicking now.0 self.old self.new) }
        ensures timed_out { (moments : List ℕ) → IsLastOf moments now.0 → AreTicking self.old moments → IfTimedOut result (HasTimedOut self.new moments) }
        ensures lost { IfProtocol result (λ e. IsProtocolLoss e self.new) }
        ensures cause { has_link_failed result ≡ false }
        ensures errors { IfErr result IsTurnError }
    {
        let client = tick_at(&mut self.client_end, now);
        let server = tick_at(&mut self.server_end, now);
        ended_by(client, server)
    }

    // The client asks and takes answers, and the server serves.
    fn converse<V: Service>(&mut self, service: &mut V) -> Result<(), Memory>
        requires open { IsOpen self.old }
        requires going { AreNotLost self.old }
        requires over { self.old.is_over ≡ true }
        requires counted { IsCounted self.old }
        ensures step { (now : ℕ) (told : Option (List Event)) → PairStep now true self.old self.new told told (V.served service.old) (V.served service.new) (λ more. more ≡ []) }
        ensures open { IsOpen self.new }
        ensures there { is_some self.old.server_end ≡ true → is_some self.new.server_end ≡ true }
        ensures going { AreNotLost self.new }
        ensures asks { OnOk result (AsksWhereItMay self.new.client self.new.client_end) }
        ensures accepts { OnOk result (HasAcceptedWhatArrived self.new.server_end) }
        ensures ticking { (moments : List ℕ) → AreTicking self.old moments → AreTicking self.new moments }
        ensures answered { GrewByAnswers (V.may_answer self.old.server.limits) (V.served service.old) (V.served service.new) }
    {
        converses::<PlainSession>();
        sends::<PlainSession>();
        honest_ends::<PlainSession>();
        same_connection::<PlainSession>();
        ask_at(self.alloc, &mut self.client, &mut self.client_end)?;
        serve_at(self.alloc, &mut self.server, &mut self.server_end, service)
    }

    // Each end sends what it has.
    fn transmit<L: Link>(&mut self, now: Moment, link: &mut L) -> Result<(), ExchangeError>
        requires open { IsOpen self.old }
        requires going { AreNotLost self.old }
        requires over { self.old.is_over ≡ true }
        requires counted { IsCounted self.old }
        ensures step { (served : List PlainEntry) → PairStep now.0 (is_done result) self.old self.new (L.events link.old) (L.events link.new) served served (λ more. IfOk result (λ _. AreOutputs self.new more)) }
        ensures open { IfOk result (λ _. IsOpen self.new) }
        ensures there { is_some self.new.server_end ≡ is_some self.old.server_end }
        ensures told { IfOk result (λ _. ToldAsBefore self.old.client_end self.new.client_end × ToldAsBefore self.old.server_end self.new.server_end) }
        ensures roles { (self.new.client ≡ self.old.client) × (self.new.server ≡ self.old.server) }
        ensures ticking { IfOk result (λ _. KeepsTicking now.0 self.old self.new) }
        ensures moments { L.moments link.new ≡ L.moments link.old }
        ensures cause { CountsFaults (L.faults link.old) (L.faults link.new) (has_link_failed result) }
        ensures fault { IfLink result (AddsFault (L.events link.old) (L.events link.new)) }
        ensures plan { L.plan link.new ≡ L.plan link.old }
        ensures errors { IfErr result IsLinkError }
    {
        transmit_at(self.alloc, &mut self.client_end, Side::Client, now, link)?;
        transmit_at(self.alloc, &mut self.server_end, Side::Server, now, link)
    }
}

// How a turn ends by what its ends lost, the client's loss first.
fn ended_by(
    client: Option<ConnectionError>,
    server: Option<ConnectionError>,
) -> Result<(), ExchangeError>
    ensures { result ≡ ended_by client server }
{
    if let Some(loss) = client {
        return Err(ExchangeError::from(loss));
    }
    match server {
        Some(loss) => Err(ExchangeError::from(loss)),
        None => Ok(()),
    }
}

// A client goes on at its end, if that is greeted.
fn ask_at(alloc: Global, client: &mut Client, slot: &mut Option<End>) -> Result<(), Memory>
    requires open { is_some slot.old ≡ true }
    requires side { IsOnSide TheClient slot.old }
    requires going { IsNotLost slot.old }
    ensures up { (end : AnEnd) → slot.old ≡ Some end → is_open end.core.state ≡ true }
    ensures polled { ClientPolled client.old client.new slot.old slot.new }
    ensures asks { OnOk result (AsksWhereItMay client.new slot.new) }
{
    let Some(end) = slot else {
        return Ok(());
    };
    // Its contract says that an end which isn't lost is open.
    end.core.is_owed();
    if !end.is_greeted() {
        return Ok(());
    }
    client.poll(alloc, &mut end.core)
}

// A server goes on at its end, if that is there, and greeted.
fn serve_at<V: Service>(
    alloc: Global,
    server: &mut Server,
    slot: &mut Option<End>,
    service: &mut V,
) -> Result<(), Memory>
    requires side { IsOnSide TheServer slot.old }
    requires going { IsNotLost slot.old }
    ensures up { (end : AnEnd) → slot.old ≡ Some end → is_open end.core.state ≡ true }
    ensures polled { ServerPolled server.old server.new slot.old slot.new (V.served service.old) (V.served service.new) }
    ensures accepts { OnOk result (HasAcceptedWhatArrived slot.new) }
    ensures answered { GrewByAnswers (V.may_answer server.old.limits) (V.served service.old) (V.served service.new) }
{
    let Some(end) = slot else {
        return Ok(());
    };
    // Its contract says that an end which isn't lost is open.
    end.core.is_owed();
    if !end.is_greeted() {
        return Ok(());
    }
    server.poll(alloc, &mut end.core, service)
}

// What both ends begin with.
fn conn_config(config: &Config) -> ConnConfig
    ensures { result ≡ conn_config config.now }
{
    let limits = StreamLimits {
        receive_window: config.receive_window,
        stream_window: config.stream_window,
        send_window: config.send_window,
        max_bidi: config.max_bidi,
        max_uni: config.max_uni,
    };
    ConnConfig {
        limits,
        idle: config.idle,
        initial_rtt: config.initial_rtt,
        initial_window: config.initial_window,
        datagram_receive: None,
        datagram_send: 0,
        version: Version::One,
    }
}

// What a response may measure.
fn limits_of(config: &Config) -> Limits
    ensures { result ≡ limits_of config.now }
{
    Limits {
        max_field_section_size: config.max_field_section_size,
        max_response_body: config.max_response_body,
    }
}

// The host that the first request names, where it can be a server name.
fn server_name(requests: &[Message]) -> &str
    ensures { length result.now ≤ MAX_NAME }
{
    match requests.first().map(Message::head) {
        Some(Head::Request { uri, .. }) => match uri.host() {
            Some(host) if !host.is_empty() && host.len() <= MAX_NAME => host,
            _ => NO_NAME,
        },
        _ => NO_NAME,
    }
}
