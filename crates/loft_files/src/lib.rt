//! A file that is rewritten: it is the old one, or the whole new one, whatever fails.
#![tactic(auto)]

ghost use Rattle.std.specs.Prelude.{◌≡◌, ◌++◌, List, ℕ, Option, IfSome, OnOk, OnErr, [], option_map};

mod disk;
#[cfg(test)]
mod memory;
#[cfg(test)]
mod tests;

pub use disk::DiskStore;
use std::io;

/// A file, and a new one beside it that is to take its place.
pub trait Store {
    // What the file holds, where it is known.
    ghost file: { Self → Option (List ℕ) };

    // What the new file beside it holds, where it is known.
    ghost beside: { Self → Option (List ℕ) };

    /// Makes the new file, empty. One that is there already is refused.
    fn begin(&mut self) -> io::Result<()>
        ensures kept { file self.new ≡ file self.old }
        ensures empty { OnOk result (IfSome (beside self.new) (λ bytes. bytes ≡ [])) };

    /// Adds bytes to the new file. Where this fails, some of them may be there.
    fn write(&mut self, bytes: &[u8]) -> io::Result<()>
        ensures kept { file self.new ≡ file self.old }
        ensures added { OnOk result
            (beside self.new ≡ option_map (λ before. before ++ bytes.now) (beside self.old)) };

    /// Has the new file written out, with the permissions of the old one, which is as it was when it was read.
    fn settle(&mut self) -> io::Result<()>
        ensures kept { file self.new ≡ file self.old }
        ensures same { beside self.new ≡ beside self.old };

    /// Puts the new file in the place of the old one, in one step.
    fn put(&mut self) -> io::Result<()>
        ensures put { OnOk result (file self.new ≡ beside self.old) }
        ensures kept { OnErr result (file self.new ≡ file self.old) };

    /// Removes the new file, where it is there.
    fn discard(&mut self)
        ensures kept { file self.new ≡ file self.old };
}

/// Makes the new file whole.
fn prepare<S: Store>(store: &mut S, bytes: &[u8]) -> io::Result<()>
    ensures kept { S.file store.new ≡ S.file store.old }
    ensures whole { OnOk result (IfSome (S.beside store.new) (λ new. new ≡ bytes.now)) }
{
    store.begin()?;
    store.write(bytes)?;
    store.settle()
}

/// Puts bytes in the place of what the file holds. Whatever fails, the file is the old one, or the whole new one: it is the
/// new one exactly where this succeeds.
pub fn put_in_place<S: Store>(store: &mut S, bytes: &[u8]) -> io::Result<()>
    ensures whole { OnOk result (IfSome (S.file store.new) (λ new. new ≡ bytes.now)) }
    ensures kept { OnErr result (S.file store.new ≡ S.file store.old) }
{
    match prepare(store, bytes) {
        Ok(()) => {}
        Err(error) => {
            store.discard();
            return Err(error);
        }
    }
    match store.put() {
        Ok(()) => Ok(()),
        Err(error) => {
            store.discard();
            Err(error)
        }
    }
}
