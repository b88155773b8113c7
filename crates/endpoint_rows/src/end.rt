//! An end: its connections, and the endpoint that made them with the attempts that it told of. In a story of connections the endpoint does nothing.
use crate::kit::{CountingWords, PlainKit, RowIds};
use crate::link::Link;
use crate::row::Row;
use crate::settings::EndSettings;
use crate::tell::{put_endpoint_event, put_event};
use qh_base::{Memory, Moment, Side};
use qh_conn::{ConnectionEvent, EndpointEvent};
use qh_endpoint::{Endpoint, Incoming};
use qh_parts::BloomTokenLog;
use qh_routes::ConnectionHandle;
use row_text::RowFault;
use std::alloc::Global;

// How many positions a token has in a filter of the log.
const POSITIONS: u32 = 4;

// The most events of a connection at once.
const MANY: u32 = 10_000;

/// An end.
#[derive(Drop)]
pub(crate) struct End {
    pub(crate) side: Side,
    pub(crate) settings: EndSettings,
    pub(crate) endpoint: Endpoint<PlainKit>,
    // None in the place of one that was spent.
    pub(crate) attempts: Vec<Option<Incoming>>,
    // Of the connections that the endpoint made.
    pub(crate) handles: Vec<ConnectionHandle>,
    pub(crate) links: Vec<Link>,
    // How many connections were tried.
    pub(crate) tries: u8,
}

// The endpoint of a side, with these settings.
fn new_endpoint(
    alloc: Global,
    side: Side,
    settings: &EndSettings,
) -> Result<Endpoint<PlainKit>, Memory> {
    let mark = match side {
        Side::Client => 0xc1,
        Side::Server => 0x51,
    };
    Endpoint::new(
        alloc,
        settings.endpoint(alloc)?,
        settings.server(),
        PlainKit,
        RowIds::new(settings.id as usize, mark, settings.strict > 0),
        CountingWords { given: 0 },
        BloomTokenLog::new(settings.log as usize, POSITIONS),
    )
}

impl End {
    /// A fresh one.
    pub(crate) fn new(alloc: Global, side: Side, settings: &EndSettings) -> Result<End, Memory> {
        let endpoint = new_endpoint(alloc, side, settings)?;
        Ok(End {
            side,
            settings: *settings,
            endpoint,
            attempts: Vec::new(alloc),
            handles: Vec::new(alloc),
            links: Vec::new(alloc),
            tries: 0,
        })
    }

    /// A connection is its next one.
    pub(crate) fn keep(&mut self, link: Link, row: &mut Row<'_>) {
        if let Err(failed) = self.links.push(link) {
            // By a call, since a drop where a scope ends is proved field by field.
            drop(failed);
            row.fail(RowFault::Memory);
        }
    }

    /// Time passes for each connection.
    pub(crate) fn pass(&mut self, now: Moment, row: &mut Row<'_>) {
        for place in 0..self.links.len() {
            if let Some(link) = self.links.get_mut(place) {
                link.pass(now, row);
            }
        }
    }

    /// Hands an event to a connection.
    pub(crate) fn hand_in(&mut self, place: usize, event: ConnectionEvent, row: &mut Row<'_>) {
        match self.links.get_mut(place) {
            Some(link) => link.hand_in(event, row),
            None => row.fail(RowFault::Form),
        }
    }

    /// What a connection tells the application, and what it asks of its endpoint, which does it.
    pub(crate) fn put_told(&mut self, place: usize, row: &mut Row<'_>) {
        let Some(link) = self.links.get_mut(place) else {
            return row.fail(RowFault::Form);
        };
        for _ in 0..MANY {
            let Some(event) = link.poll() else {
                break;
            };
            row.put_comma();
            put_event(&event, row);
        }
        for _ in 0..MANY {
            let Some(event) = self.poll_endpoint(place) else {
                break;
            };
            row.put_comma();
            put_endpoint_event(&event, row);
            self.serve(place, event, row);
        }
        if row.is("") {
            row.put("-");
        }
    }

    // What a connection asks of its endpoint next.
    fn poll_endpoint(&mut self, place: usize) -> Option<EndpointEvent> {
        match self.links.get_mut(place) {
            Some(link) => link.poll_endpoint(),
            None => None,
        }
    }
}
