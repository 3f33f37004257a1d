//! A reader that gives little at a time, a writer that takes little at a time, and both fail.
use std::io;
use std::io::{Error, ErrorKind, Read, Write};

// Gives its bytes a few at a time, and then fails or is at its end.
#[derive(Clone, Copy, Drop)]
pub struct Pieces<'a> {
    pub bytes: &'a [u8],
    pub size: usize,
    pub fails: bool,
}

impl<'a> Pieces<'a> {
    pub fn whole(bytes: &'a [u8]) -> Pieces<'a> {
        Pieces {
            bytes,
            size: 4096,
            fails: false,
        }
    }
}

impl Read for Pieces<'_> {
    fn read(&mut self, buf: &mut [u8]) -> io::Result<usize> {
        let n = self.size.min(self.bytes.len()).min(buf.len());
        if n == 0 && self.fails {
            return Err(Error::from(ErrorKind::BrokenPipe));
        }
        let (front, rest) = self.bytes.split_at(n);
        buf[..n].copy_from_slice(front);
        self.bytes = rest;
        Ok(n)
    }
}

// Takes a few bytes at a time, up to a limit.
#[derive(Drop)]
pub struct Narrow {
    pub taken: Vec<u8>,
    pub limit: usize,
}

impl Write for Narrow {
    fn write(&mut self, buf: &[u8]) -> io::Result<usize> {
        let held = self.taken.len();
        if held >= self.limit {
            return Err(Error::from(ErrorKind::BrokenPipe));
        }
        let n = buf.len().min(5).min(self.limit - held);
        self.taken.extend_from_slice(&buf[..n])?;
        Ok(n)
    }

    fn flush(&mut self) -> io::Result<()> {
        Ok(())
    }
}

// Takes all that is written, and counts how often it is handed on, up to a limit.
#[derive(Drop)]
pub struct Flushes {
    pub count: usize,
    pub limit: usize,
}

impl Write for Flushes {
    fn write(&mut self, buf: &[u8]) -> io::Result<usize> {
        Ok(buf.len())
    }

    fn flush(&mut self) -> io::Result<()> {
        if self.count >= self.limit {
            return Err(Error::from(ErrorKind::BrokenPipe));
        }
        self.count += 1;
        Ok(())
    }
}
