//! Readers with errors of their own.

use crate::common::equal;
use std::io::{self, Read};
use watched::{Input, Reader};

/// A reader that only fails.
#[derive(Drop)]
struct Failing;

impl Read for Failing {
    fn read(&mut self, _buffer: &mut [u8]) -> io::Result<usize> {
        Err(io::Error::from(io::ErrorKind::UnexpectedEof))
    }
}

#[test]
fn a_readers_own_error_is_given(rt: HostRuntime) {
    let mut input = Input::new(Reader::new(Failing));
    let mut buffer = [0; 2];
    let kind = input.read(&mut buffer).map_err(|error| error.kind());
    equal(&rt, kind, Err(io::ErrorKind::UnexpectedEof));
}
