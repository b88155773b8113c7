//! Answers rows about a client and a server between which datagrams go: of one connection of each, or of an endpoint of each with its connections.
//! The head of `stdin` beside `src/` explains the rows.
#![tactic(auto)]

mod bulk;
mod connection_calls;
mod connection_request;
mod connection_run;
mod datagrams;
mod end;
mod endpoint_attempts;
mod endpoint_bulk;
mod endpoint_calls;
mod endpoint_connections;
mod endpoint_run;
mod items;
mod kit;
mod link;
mod link_calls;
mod link_changes;
mod made;
mod pair;
mod row;
mod settings;
mod tell;

use pair::{Pair, Story};
use qh_base::{StdSink, StdSource};
use row::Row;
use row_text::{RowFault, Table, run};
use settings::Settings;
use std::alloc::Global;
use std::process::ExitCode;

fn main(rt: HostRuntime) -> ExitCode {
    let alloc = rt.alloc();
    let mut source = StdSource::new(rt.stdin());
    let mut sink = StdSink::new(rt.stdout());
    match Pair::new(alloc, Story::Endpoints, &Settings::usual()) {
        Ok(mut pair) => {
            let status = run(alloc, &mut source, &mut sink, &mut pair);
            drop(pair);
            ExitCode::from(status)
        }
        Err(_) => ExitCode::from(9),
    }
}

impl Table for Pair {
    fn answer(&mut self, alloc: Global, row: &str, out: &mut Vec<u8>) -> Result<(), RowFault> {
        let mut row = Row::new(alloc, row);
        self.answer_row(&mut row);
        row.end(out)
    }
}
