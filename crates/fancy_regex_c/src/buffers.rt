//! Buffers that the caller gives.

ghost use Rattle.std.specs.Prelude.{◌≡◌, ◌+◌, ◌<◌, ◌^◌};
ghost use Rattle.fancy_regex_c.specs.Buffers.{Puts, PutsNext, done_if};

use crate::answers::{DONE, TOO_SHORT};

/// Writes the bytes at the start of the buffer, if it is long enough. How long they are is told in both cases.
pub fn put(bytes: &[u8], buffer: &mut [u8], wanted: &mut usize) -> u32
    ensures { Puts bytes.now buffer.old buffer.new wanted.new result }
{
    *wanted = bytes.len();
    if buffer.len() < bytes.len() {
        return TOO_SHORT;
    }
    buffer[..bytes.len()].copy_from_slice(bytes);
    DONE
}

/// `DONE` where so many items have room in a buffer, and else `TOO_SHORT`.
pub fn done_if(wanted: usize, room: usize) -> u32
    ensures { result ≡ done_if wanted room }
{
    if wanted <= room { DONE } else { TOO_SHORT }
}

/// Puts an item behind those before it, if there is room for it, and counts it.
pub fn put_next<T: Copy>(item: T, buffer: &mut [T], count: &mut usize)
    requires { count.old + 1 < 2 ^ 64 }
    ensures counted { count.new ≡ count.old + 1 }
    ensures put { PutsNext item buffer.old buffer.new count.old }
{
    if *count < buffer.len() {
        buffer[*count] = item;
    }
    *count += 1;
}
