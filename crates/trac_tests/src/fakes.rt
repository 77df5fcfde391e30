//! A reader and a writer that fail where they are told to.
use std::io;
use std::io::{Read, Write};

/// A reader of a text that gives at most `most` bytes at a read,
/// and fails at the read of this number, counted from 1.
#[derive(Drop)]
pub struct FakeReader<'a> {
    rest: &'a [u8],
    most: usize,
    reads: u32,
    pub bad_read: u32,
}

impl<'a> FakeReader<'a> {
    pub fn new(rest: &'a [u8], most: usize, bad_read: u32) -> FakeReader<'a> {
        FakeReader {
            rest,
            most,
            reads: 0,
            bad_read,
        }
    }
}

impl Read for FakeReader<'_> {
    fn read(&mut self, buf: &mut [u8]) -> io::Result<usize> {
        self.reads = self.reads.saturating_add(1);
        if self.reads == self.bad_read {
            return Err(io::Error::from(io::ErrorKind::Other));
        }
        let n = self.most.min(self.rest.len()).min(buf.len());
        let (given, rest) = self.rest.split_at(n);
        buf[..n].copy_from_slice(given);
        self.rest = rest;
        Ok(n)
    }
}

/// A writer that takes at most `most` bytes at a write,
/// and fails at the write of this number, counted from 1.
#[derive(Drop)]
pub struct FakeWriter<'a> {
    taken: &'a mut Vec<u8>,
    most: usize,
    writes: u32,
    bad_write: u32,
}

impl<'a> FakeWriter<'a> {
    pub fn new(taken: &'a mut Vec<u8>, most: usize, bad_write: u32) -> FakeWriter<'a> {
        FakeWriter {
            taken,
            most,
            writes: 0,
            bad_write,
        }
    }
}

impl Write for FakeWriter<'_> {
    fn write(&mut self, buf: &[u8]) -> io::Result<usize> {
        self.writes = self.writes.saturating_add(1);
        if self.writes == self.bad_write {
            return Err(io::Error::from(io::ErrorKind::Other));
        }
        let n = self.most.min(buf.len());
        self.taken.extend_from_slice(&buf[..n])?;
        Ok(n)
    }

    fn flush(&mut self) -> io::Result<()> {
        Ok(())
    }
}
