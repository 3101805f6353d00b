//! Readers and writers that are interrupted or fail.
use pid_doubles::FaultyOutput;
use pid_ident::{Input, Output, Plain, WriteFault, write_all, write_parts};
use std::alloc::Global;
use std::io;
use std::io::{ErrorKind, Read, Write};

// Each call is interrupted once, and then returns one byte.
#[derive(Drop)]
struct Hiccups<'a> {
    rest: &'a [u8],
    interrupted: bool,
}

impl Read for Hiccups<'_> {
    fn read(&mut self, buf: &mut [u8]) -> io::Result<usize> {
        self.interrupted = !self.interrupted;
        if self.interrupted {
            return Err(io::Error::from(ErrorKind::Interrupted));
        }
        let Some((first, others)) = self.rest.split_first() else {
            return Ok(0);
        };
        if buf.is_empty() {
            return Ok(0);
        }
        buf[0] = *first;
        self.rest = others;
        Ok(1)
    }
}

#[test]
fn an_interrupted_read_is_made_again(rt: HostRuntime) {
    let mut input = Plain::new(Hiccups {
        rest: b"ab",
        interrupted: false,
    });
    let mut buffer = [0u8; 8];
    for (count, first) in [(1, b'a'), (1, b'b'), (0, b'b')] {
        assert!(rt;
            input.read(&mut buffer).ok() == Some(count) && buffer[0] == first,
            "{count}"
        );
    }
}

// A writer whose calls end in order: interrupted, one byte taken, broken or none taken.
#[derive(Drop)]
struct Worn {
    calls: u64,
    is_broken: bool,
}

impl Write for Worn {
    fn write(&mut self, buf: &[u8]) -> io::Result<usize> {
        self.calls = self.calls.saturating_add(1);
        match self.calls {
            1 => Err(io::Error::from(ErrorKind::Interrupted)),
            2 => Ok(buf.len().min(1)),
            _ if self.is_broken => Err(io::Error::from(ErrorKind::BrokenPipe)),
            _ => Ok(0),
        }
    }

    fn flush(&mut self) -> io::Result<()> {
        Ok(())
    }
}

fn is_failed<T: Drop>(written: Result<T, WriteFault>, fault: WriteFault) -> bool {
    match written {
        Ok(_) => false,
        Err(met) => met.number() == fault.number(),
    }
}

// Whether a worn writer fails so, and is called no more.
fn fails_so(is_broken: bool, fault: WriteFault) -> bool {
    let calls = 0;
    let mut out = Plain::new(Worn { calls, is_broken });
    matches!(out.write(b"ab"), Ok(1))
        && is_failed(out.write(b"b"), fault)
        && is_failed(out.write(b"b"), fault)
        && out.into_inner().calls == 3
}

// Whether a writer that fails after so many calls took these bytes.
fn takes(alloc: Global, calls: u64, fault: WriteFault, taken: &[u8]) -> bool {
    let mut out = FaultyOutput::new(alloc, 2).failing_after(calls, fault);
    let parts: [&[u8]; 3] = [b"abc", b"", b"defg"];
    is_failed(write_parts(&mut out, &parts), fault) && out.taken.as_slice() == taken
}

#[test]
fn writers_fail(rt: HostRuntime) {
    assert!(rt; fails_so(true, WriteFault::Device));
    assert!(rt; fails_so(false, WriteFault::Zero));
    for fault in [WriteFault::Device, WriteFault::Zero] {
        let whole: [&[u8]; 4] = [b"", b"ab", b"abc", b"abcde"];
        let mut calls = 0u64;
        for taken in whole {
            assert!(rt; takes(rt.alloc(), calls, fault, taken), "{calls}");
            calls = calls.saturating_add(1);
        }
    }
    let mut out = FaultyOutput::new(rt.alloc(), 2);
    assert!(rt; write_all(&mut out, b"abc").is_ok() && out.taken.as_slice() == b"abc".as_slice());
    let mut plain = Plain::new(Vec::new(rt.alloc()));
    assert!(rt; write_all(&mut plain, b"abc").is_ok());
    assert!(rt; plain.into_inner().as_slice() == b"abc".as_slice());
}
