//! Rows of one endpoint.
ghost use Rattle.std.specs.Prelude.{◌≡◌, []};

use crate::end::End;
use crate::made::{Parts, client_tag, write_initial};
use crate::row::{NAME, Row};
use crate::settings::Settings;
use bytes::Bytes;
use qh_base::{Memory, Moment};
use row_text::RowFault;
use std::net::SocketAddr;

/// The word of a row of one endpoint.
#[derive(Clone, Copy)]
pub(crate) enum EndpointCall {
    Connect,
    ConnectBearing,
    ConnectMany,
    Cuts,
    Accept,
    Refuse,
    Retry,
    Ignore,
    Pending,
    Takes,
    Known,
    ValidationToken,
    Bytes,
    Open,
}

pub(crate) const ENDPOINT_CALLS: [(&str, EndpointCall); 14] = [
    ("connect", EndpointCall::Connect),
    ("connect-bearing", EndpointCall::ConnectBearing),
    ("connect-many", EndpointCall::ConnectMany),
    ("cuts", EndpointCall::Cuts),
    ("accept", EndpointCall::Accept),
    ("refuse", EndpointCall::Refuse),
    ("retry", EndpointCall::Retry),
    ("ignore", EndpointCall::Ignore),
    ("pending", EndpointCall::Pending),
    ("takes", EndpointCall::Takes),
    ("known", EndpointCall::Known),
    ("validation-token", EndpointCall::ValidationToken),
    ("bytes", EndpointCall::Bytes),
    ("open", EndpointCall::Open),
];

impl End {
    /// Answers a row of the endpoint, which may write an answer of its own into the buffer.
    pub(crate) fn answer(
        &mut self,
        now: Moment,
        call: EndpointCall,
        buf: &mut Vec<u8>,
        row: &mut Row<'_>,
    )
        requires { buf.old.items ≡ [] }
    {
        match call {
            EndpointCall::Connect => self.connect_many(now, 1, row),
            EndpointCall::ConnectMany => {
                let count = row.number();
                self.connect_many(now, count, row);
            }
            EndpointCall::ConnectBearing => {
                let token = row.payload();
                let name = read_name(row);
                let remote = row.address_or(self.side.other());
                self.connect_bearing(now, remote, &name, token, row);
            }
            EndpointCall::Cuts => self.cuts(now, row),
            EndpointCall::Accept => {
                let place = row.number() as usize;
                let server = if row.is_at_end() {
                    None
                } else {
                    Settings::read(row).of(self.side).server()
                };
                self.accept(now, place, server, buf, row);
            }
            EndpointCall::Refuse => self.refuse(row.number() as usize, buf, row),
            EndpointCall::Retry => self.retry(now, row.number() as usize, buf, row),
            _ => self.tell(now, call, row),
        }
    }

    // Answers a row by which the endpoint is asked, takes attempts from now on or none, or forgets one.
    fn tell(&mut self, now: Moment, call: EndpointCall, row: &mut Row<'_>) {
        match call {
            EndpointCall::Ignore => {
                row.put("ok");
                self.ignore(row.number() as usize, row);
            }
            EndpointCall::Pending => self.put_pending(row.number() as usize, row),
            EndpointCall::Takes => {
                row.put("ok");
                let server = match row.number() {
                    0 => None,
                    _ => self.settings.server(),
                };
                self.endpoint.set_server_config(server);
            }
            EndpointCall::Known => match self.handle_of(row.number() as usize) {
                Some(handle) if self.endpoint.known(handle) => row.put("known"),
                Some(_) => row.put("unknown"),
                None => row.fail(RowFault::Form),
            },
            EndpointCall::ValidationToken => {
                match self.endpoint.validation_token(row.ip(), now) {
                    Ok(token) => row.put_part("", &token),
                    Err(Memory) => row.fail(RowFault::Memory),
                }
            }
            EndpointCall::Bytes => row.put_count("", self.endpoint.incoming_buffer_bytes()),
            _ => row.put_count("", self.endpoint.open_connections() as u64),
        }
    }

    // [NAME [ADDRESS]]: tries so many connections, and tells of the last one.
    fn connect_many(&mut self, now: Moment, count: u64, row: &mut Row<'_>) {
        let name = read_name(row);
        let remote = row.address_or(self.side.other());
        for _ in 1..count {
            self.connect(now, remote, &name, &mut Row::new(row.alloc, ""));
        }
        self.connect(now, remote, &name, row);
    }

    // ADDRESS BYTES: each front of the bytes but all of them comes.
    fn cuts(&mut self, now: Moment, row: &mut Row<'_>) {
        let from = row.address();
        let bytes = row.bytes();
        let mut ignored = 0u64;
        for len in 0..bytes.len() {
            let front = bytes.get(..len).unwrap_or(&[]);
            ignored = ignored.saturating_add(self.cut(now, from, front, row));
        }
        row.put_count("", ignored);
        row.put_count(" of ", bytes.len() as u64);
    }

    // A datagram of these bytes comes. Returns 1 if nothing is done with it.
    fn cut(&mut self, now: Moment, from: SocketAddr, front: &[u8], row: &mut Row<'_>) -> u64 {
        let Ok(datagram) = Bytes::copy_from_slice(row.alloc, front) else {
            row.fail(RowFault::Memory);
            return 0;
        };
        let mut told = Row::new(row.alloc, "");
        let mut buf = Vec::new(row.alloc);
        self.hand(now, from, datagram, &mut buf, &mut told);
        u64::from(told.is("none"))
    }
}

// The next word as a server name, or the one that clients ask for where nothing is said.
fn read_name(row: &mut Row<'_>) -> Vec<u8> {
    if !row.is_at_end() {
        return row.bytes();
    }
    match NAME.to_vec(row.alloc) {
        Ok(name) => name,
        Err(_) => {
            row.fail(RowFault::Memory);
            Vec::new(row.alloc)
        }
    }
}

/// DESTINATION SOURCE SIZE TOKEN FRAMES [KEY]: an Initial packet of a client.
pub(crate) fn made_initial(row: &mut Row<'_>) -> Vec<u8> {
    let destination = row.id();
    let source = row.id();
    let size = row.number();
    let token = row.bytes();
    let frames = row.bytes();
    let key = if row.is_at_end() {
        destination
    } else {
        row.id()
    };
    let parts = Parts {
        destination,
        source,
        number: 0,
        size,
        tag: client_tag(key, row),
    };
    let mut bytes = Vec::new(row.alloc);
    write_initial(&mut bytes, &parts, &token, &frames, row);
    bytes
}
