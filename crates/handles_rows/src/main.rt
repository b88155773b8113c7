//! Answers rows about the handles of a client's and a server's connection, and about their drivers, between which datagrams go. The head of `stdin` beside
//! `src/` explains the rows.
#![tactic(auto)]

mod acts;
mod end;
mod history;
mod lent;
mod link;
mod row;
mod settings;
mod socket;
mod state;
mod stories;
mod tasks;
mod tell;
mod waits;

use qh_base::{StdSink, StdSource};
use qh_packet::PlainSession;
use qh_quinn::State;
use row::Row;
use row_text::{RowFault, Table, run};
use settings::Settings;
use state::Rows;
use std::alloc::Global;
use std::process::ExitCode;
use stories::Stories;
use tasks::Tasks;

fn main(rt: HostRuntime) -> ExitCode {
    let alloc = rt.alloc();
    let mut source = StdSource::new(rt.stdin());
    let mut sink = StdSink::new(rt.stdout());
    let Ok(tasks) = Tasks::new(&rt) else {
        return ExitCode::from(9);
    };
    match Stories::<State<PlainSession>>::new(alloc, tasks, &Settings::usual()) {
        Ok(mut stories) => {
            let status = run(alloc, &mut source, &mut sink, &mut stories);
            drop(stories);
            ExitCode::from(status)
        }
        Err(_) => ExitCode::from(9),
    }
}

impl<A: Rows> Table for Stories<A> {
    fn answer(&mut self, alloc: Global, row: &str, out: &mut Vec<u8>) -> Result<(), RowFault> {
        let mut row = Row::new(alloc, row);
        self.answer_row(&mut row);
        row.end(out)
    }
}
