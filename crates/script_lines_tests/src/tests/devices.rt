//! A reader and a writer that give and take little at a time, are interrupted, and fail.
use std::io;
use std::io::{Error, ErrorKind, Read, Write};

// Gives its bytes a few at a time, every other read interrupted, and then fails or is at its end.
#[derive(Drop)]
pub struct Pieces<'a> {
    bytes: &'a [u8],
    size: usize,
    fails: bool,
    rested: bool,
}

impl<'a> Pieces<'a> {
    pub fn new(bytes: &'a [u8], size: usize) -> Pieces<'a> {
        Pieces {
            bytes,
            size,
            fails: false,
            rested: false,
        }
    }

    pub fn failing(bytes: &'a [u8]) -> Pieces<'a> {
        Pieces {
            bytes,
            size: 3,
            fails: true,
            rested: false,
        }
    }
}

impl Read for Pieces<'_> {
    fn read(&mut self, buf: &mut [u8]) -> io::Result<usize> {
        self.rested = !self.rested;
        if self.rested {
            return Err(Error::from(ErrorKind::Interrupted));
        }
        let n = self.size.min(self.bytes.len()).min(buf.len());
        if n == 0 && self.fails {
            return Err(Error::from(ErrorKind::BrokenPipe));
        }
        let (front, rest) = self.bytes.split_at(n);
        buf[..n].copy_from_slice(front);
        self.bytes = rest;
        Ok(n)
    }
}

// Takes three bytes at a time up to a limit, every other write interrupted, and then fails or
// takes nothing.
#[derive(Drop)]
pub struct Narrow {
    pub taken: Vec<u8>,
    pub limit: usize,
    pub fails: bool,
    pub rested: bool,
}

impl Write for Narrow {
    fn write(&mut self, buf: &[u8]) -> io::Result<usize> {
        self.rested = !self.rested;
        if self.rested {
            return Err(Error::from(ErrorKind::Interrupted));
        }
        let held = self.taken.len();
        if held >= self.limit {
            return if self.fails {
                Err(Error::from(ErrorKind::BrokenPipe))
            } else {
                Ok(0)
            };
        }
        let n = buf.len().min(3).min(self.limit - held);
        self.taken.extend_from_slice(&buf[..n])?;
        Ok(n)
    }

    fn flush(&mut self) -> io::Result<()> {
        self.rested = !self.rested;
        if self.rested {
            return Err(Error::from(ErrorKind::Interrupted));
        }
        if self.taken.len() >= self.limit {
            return Err(Error::from(ErrorKind::BrokenPipe));
        }
        Ok(())
    }
}
