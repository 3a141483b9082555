//! A writer that takes a few bytes a call.
use std::alloc::Global;
use std::io;
use std::io::{Error, ErrorKind, Write};

/// Takes a block a call. Once the calls are used up, it fails or takes none.
#[derive(Drop)]
pub(crate) struct Narrow {
    pub(crate) taken: Vec<u8>,
    pub(crate) block: usize,
    pub(crate) calls: usize,
    pub(crate) fails: bool,
    /// How many calls came once the calls were used up.
    pub(crate) refused: usize,
}

impl Narrow {
    pub(crate) fn new(alloc: Global, block: usize, calls: usize, fails: bool) -> Narrow {
        Narrow {
            taken: Vec::new(alloc),
            block,
            calls,
            fails,
            refused: 0,
        }
    }
}

impl Write for Narrow {
    fn write(&mut self, buf: &[u8]) -> io::Result<usize> {
        if self.calls == 0 {
            self.refused = self.refused.saturating_add(1);
            return if self.fails {
                Err(Error::from(ErrorKind::BrokenPipe))
            } else {
                Ok(0)
            };
        }
        if buf.is_empty() {
            return Ok(0);
        }
        self.calls -= 1;
        let count = buf.len().min(self.block);
        self.taken.extend_from_slice(&buf[..count])?;
        Ok(count)
    }

    fn flush(&mut self) -> io::Result<()> {
        Ok(())
    }
}
