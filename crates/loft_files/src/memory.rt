//! A file in memory.

ghost use Rattle.std.specs.Prelude.{◌≡◌, Some, option_map};

use crate::Store;
use std::alloc::Global;
use std::io;

/// A file in memory, and a new one beside it. One call of it fails.
#[derive(Drop)]
pub(crate) struct MemoryStore {
    pub(crate) alloc: Global,
    pub(crate) file: Vec<u8>,
    pub(crate) beside: Option<Vec<u8>>,
    /// How many calls are made before the one that fails.
    pub(crate) calls_left: usize,
}

/// The fault of the call that fails.
fn fault() -> io::Error {
    io::Error::from(io::ErrorKind::StorageFull)
}

impl MemoryStore {
    /// Counts a call. The one that fails answers a fault.
    fn call(&mut self) -> io::Result<()>
        ensures file { self.new.file ≡ self.old.file }
        ensures beside { self.new.beside ≡ self.old.beside }
    {
        if self.calls_left == 0 {
            self.calls_left = usize::MAX;
            return Err(fault());
        }
        self.calls_left -= 1;
        Ok(())
    }
}

impl Store for MemoryStore {
    ghost file = { λ s. Some s.file.items };

    ghost beside = { λ s. option_map (λ v. v.items) s.beside };

    fn begin(&mut self) -> io::Result<()> {
        self.call()?;
        self.beside = Some(Vec::new(self.alloc));
        Ok(())
    }

    fn write(&mut self, bytes: &[u8]) -> io::Result<()> {
        let failing = self.call();
        let Some(beside) = &mut self.beside else {
            return Err(fault());
        };
        if failing.is_err() {
            let half = bytes.len() / 2;
            beside.extend_from_slice(&bytes[..half])?;
            return failing;
        }
        beside.extend_from_slice(bytes)?;
        Ok(())
    }

    fn settle(&mut self) -> io::Result<()> {
        self.call()
    }

    fn put(&mut self) -> io::Result<()> {
        self.call()?;
        let Some(beside) = self.beside.take() else {
            return Err(fault());
        };
        self.file = beside;
        Ok(())
    }

    fn discard(&mut self) {
        self.beside = None;
    }
}
