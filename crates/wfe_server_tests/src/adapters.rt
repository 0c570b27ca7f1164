// A reader and a writer that never work, behind the adapters.
use std::io;
use std::io::{Read, Write};
use wfe_outside::{Sink, Source, StdSink, StdSource};

/// A reader and a writer that never work.
#[derive(Drop)]
struct Broken;

impl Read for Broken {
    fn read(&mut self, _buf: &mut [u8]) -> io::Result<usize> {
        Err(io::Error::from(io::ErrorKind::BrokenPipe))
    }
}

impl Write for Broken {
    fn write(&mut self, _buf: &[u8]) -> io::Result<usize> {
        Ok(0)
    }

    fn flush(&mut self) -> io::Result<()> {
        Err(io::Error::from(io::ErrorKind::BrokenPipe))
    }
}

#[test]
fn a_reader_that_fails_is_a_fault(rt: HostRuntime) {
    let mut buf = [0u8; 4];
    let mut source = StdSource::new(Broken);
    assert!(rt; source.read(&mut buf).is_err());
}

#[test]
fn a_writer_that_takes_nothing_is_a_fault(rt: HostRuntime) {
    let mut sink = StdSink::new(Broken);
    assert!(rt; sink.write(b"abc").is_err());
    assert!(rt; sink.write(b"").is_ok());
    assert!(rt; sink.flush().is_err());
}
