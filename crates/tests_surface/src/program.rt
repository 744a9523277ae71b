//! The parts of the program's runs.

use std::io;
use std::io::{Error, ErrorKind, Write};
use typst_html_run::{LastCall, Recorded, WriteFailed};

#[test]
fn recorded_writers_write(rt: HostRuntime) {
    let mut writer = Recorded::new(Vec::new(rt.alloc()));
    assert!(rt; writer.last() == LastCall::NoCall);
    assert!(rt; writer.write(b"a") == Ok(1));
    assert!(rt; writer.last() == LastCall::Wrote);
    assert!(rt; writer.write_all(b"bc") == Ok(()));
    assert!(rt; writer.flush() == Ok(()));
    assert!(rt; writer.last() == LastCall::Flushed);
    assert!(rt; writer.into_writer().as_slice() == b"abc".as_slice());
}

/// A device on which no call succeeds.
#[derive(Drop)]
struct Broken;

impl Write for Broken {
    fn write(&mut self, _buf: &[u8]) -> io::Result<usize> {
        Err(Error::from(ErrorKind::Other))
    }

    fn flush(&mut self) -> io::Result<()> {
        Err(Error::from(ErrorKind::Other))
    }
}

#[test]
fn recorded_writers_fail(rt: HostRuntime) {
    let mut writer = Recorded::new(Broken);
    assert!(rt; writer.write_all(b"x") == Err(WriteFailed));
    assert!(rt; writer.flush() == Err(WriteFailed));
    assert!(rt; writer.last() == LastCall::Failed);
}
