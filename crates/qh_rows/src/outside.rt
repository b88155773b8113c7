//! A log of used tokens that threads share, and readers and writers that are interrupted.

use qh_base::{Moment, Sink, Source, Span, StdSink, StdSource};
use qh_parts::{BloomTokenLog, SharedTokenLog, TokenLog};
use std::alloc::Global;
use std::io::{self, ErrorKind, Read, Write};
use std::test::Fail;
use std::thread;

fn enter<L: TokenLog + Drop>(mut token_log: L, alloc: Global, nonce: u128) -> bool {
    token_log
        .check_and_insert(alloc, nonce, Moment(5), Span(1_000))
        .is_ok()
}

// A token counts once, whoever looks at it.
#[test]
fn a_log_is_shared(rt: HostRuntime) {
    let alloc = rt.alloc();
    let shared = SharedTokenLog::new(&rt, BloomTokenLog::default_log());
    let (first, second) = (&shared, &shared);
    assert!(rt; enter(first, alloc, 7));
    assert!(rt; !enter(second, alloc, 7));
    let (left, right) = thread::join(&rt, || enter(first, alloc, 8), || enter(second, alloc, 8));
    assert!(rt; left != right);
}

// Is interrupted, fails, and then gives and takes two bytes a call.
#[derive(Drop)]
struct Interrupted {
    calls: u8,
}

impl Interrupted {
    fn turn(&mut self) -> io::Result<usize> {
        self.calls = self.calls.saturating_add(1);
        match self.calls {
            1 => Err(io::Error::from(ErrorKind::Interrupted)),
            2 => Err(io::Error::from(ErrorKind::BrokenPipe)),
            _ => Ok(2),
        }
    }
}

impl Read for Interrupted {
    fn read(&mut self, buf: &mut [u8]) -> io::Result<usize> {
        Ok(self.turn()?.min(buf.len()))
    }
}

impl Write for Interrupted {
    fn write(&mut self, piece: &[u8]) -> io::Result<usize> {
        Ok(self.turn()?.min(piece.len()))
    }

    fn flush(&mut self) -> io::Result<()> {
        Ok(())
    }
}

// An interruption is no fault: the call goes on, and what fails is told once.
#[test]
fn an_interruption_is_no_fault(rt: HostRuntime) -> Result<(), Fail> {
    let mut source = StdSource::new(Interrupted { calls: 0 });
    let mut buf = [0; 4];
    assert!(rt; source.read(&mut buf).is_err());
    assert_eq!(rt; source.read(&mut buf), Ok(2));
    let mut sink = StdSink::new(Interrupted { calls: 0 });
    assert!(rt; sink.write(b"abc").is_err());
    assert_eq!(rt; sink.write(b"abc"), Ok(2));
    Ok(())
}
