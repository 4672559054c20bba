//! Files of the system.

ghost use Rattle.std.specs.Prelude.{None};

use crate::Store;
use std::alloc::{AllocError, Global};
use std::fs::{self, File, Metadata, OpenFile};
use std::io::{self, Write};
use std::rt::Files;

/// A file of the system, and a new one beside it. What they hold is known to nobody.
pub struct DiskStore<'r, R: Files> {
    rt: &'r R,
    path: String,
    /// The path of the new file.
    new_path: String,
    /// The file as it was when it was read.
    before: Metadata,
    new_file: Option<R::File>,
    /// Whether the new file was made, and is this one's to remove.
    made: bool,
}

/// Whether two looks at a file show the same one, unchanged as far as can be told.
fn is_same(before: &Metadata, after: &Metadata) -> bool {
    let same_time = match (before.modified(), after.modified()) {
        (Ok(before), Ok(after)) => before == after,
        _ => true,
    };
    same_time && before.len() == after.len()
}

impl<'r, R: Files> Drop for DiskStore<'r, R> {
    fn drop(self) {
        let DiskStore {
            rt: _,
            path: _,
            new_path: _,
            before: _,
            new_file: _,
            made: _,
        } = self;
    }
}

impl<'r, R: Files> DiskStore<'r, R> {
    /// The file at a path, which was looked at before it was read. A link is followed.
    pub fn new(
        alloc: Global,
        rt: &'r R,
        path: &str,
        before: Metadata,
    ) -> Result<DiskStore<'r, R>, AllocError> {
        let path = match rt.canonicalize(alloc, path) {
            Ok(real) => String::from_str(alloc, real.as_path().as_str())?,
            Err(_) => String::from_str(alloc, path)?,
        };
        let new_path = format!(in alloc; "{path}.loft-new")?;
        Ok(DiskStore {
            rt,
            path,
            new_path,
            before,
            new_file: None,
            made: false,
        })
    }
}

impl<'r, R: Files> Store for DiskStore<'r, R> {
    ghost file = { λ _. None };

    ghost beside = { λ _. None };

    fn begin(&mut self) -> io::Result<()> {
        match File::create_new(self.rt, self.new_path.as_str()) {
            Ok(file) => {
                self.new_file = Some(file);
                self.made = true;
                Ok(())
            }
            Err(error) if error.kind() == io::ErrorKind::AlreadyExists => Err(io::Error::new(
                io::ErrorKind::AlreadyExists,
                "its new file, with .loft-new after its name, is there already",
            )),
            Err(error) => Err(error),
        }
    }

    fn write(&mut self, bytes: &[u8]) -> io::Result<()> {
        match &mut self.new_file {
            Some(file) => file.write_all(bytes),
            None => Err(io::Error::from(io::ErrorKind::NotFound)),
        }
    }

    fn settle(&mut self) -> io::Result<()> {
        if let Some(file) = &self.new_file {
            file.sync_all()?;
        }
        self.new_file = None;
        self.rt
            .set_permissions(self.new_path.as_str(), self.before.permissions())?;
        let after = fs::metadata(self.rt, self.path.as_str())?;
        if is_same(&self.before, &after) {
            Ok(())
        } else {
            Err(io::Error::new(io::ErrorKind::Other, "changed while it was rewritten"))
        }
    }

    fn put(&mut self) -> io::Result<()> {
        self.rt.rename(self.new_path.as_str(), self.path.as_str())
    }

    fn discard(&mut self) {
        self.new_file = None;
        if self.made {
            let _ = self.rt.remove_file(self.new_path.as_str());
        }
    }
}
