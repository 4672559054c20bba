//! A box as a C program holds it: a pointer, and whether there is one.

ghost use Rattle.std.specs.Prelude.{◌≡◌, Bool, true, false};
ghost use Rattle.std.specs.Box.Ownership.{box_owns};
ghost use Rattle.std.specs.contracts.impls.GlobalAllocator.TheImpl.{ghosts};
ghost use Rattle.fancy_regex_c.specs.declared.handle.Kept.{Kept};
ghost use Rattle.fancy_regex_c.specs.contracts.handle.Kept.{the_row};
ghost use Rattle.fancy_regex_c.specs.Owned.{owned_if};
ghost use Rattle.fancy_regex_c.specs.Held.{kept_coded};

mod parts;

use crate::under_way::{MatchList, TokenList};
use fancy_regex::{Regex, RegexSet};
use parts::Parts;
use std::alloc::Global;
use std::marker::Model;
use std::mem::replace;
use std::ptr::null_mut;
use std::sync::Arc;

/// What a handle may own.
#[derive(Drop)]
pub enum Kept {
    /// Nothing, which no handle owns: the value of an empty handle for the logic.
    Nothing,
    /// A regex, which several handles may share.
    Regex(Arc<Regex, Global>),
    /// A set, which several handles may share.
    Set(Arc<RegexSet, Global>),
    /// A list of matches under way.
    Matches(MatchList),
    /// A list of tokens under way.
    Tokens(TokenList),
}

/// A box as its pointer, or no box.
#[repr(C)]
#[derive(Drop)]
pub struct Raw {
    at: *mut u8,
    alloc: Global,
    pub ghost full: { Bool },
    pub ghost value: { Kept } by { kept_coded },
}

impl Model for Raw {
    ghost also_owns = { λ h. owned_if h.full (box_owns (ghosts.dealloc_token h.alloc) the_row h.at h.value) };
}

// The three functions that are proved by hand: what a pointer owns is made of a box, given back, or nothing.
impl Raw {
    fn none(alloc: Global) -> Raw
        ensures { result.full ≡ false }
    {
        Raw {
            at: null_mut(),
            alloc,
        }
    }

    fn of_parts(parts: Parts<Kept, Global>) -> Raw
        ensures full { result.full ≡ true }
        ensures value { result.value ≡ parts.value }
    {
        let Parts { ptr, alloc } = parts;
        Raw {
            at: ptr as *mut u8,
            alloc,
        }
    }

    fn into_parts(self) -> Parts<Kept, Global>
        requires { self.full ≡ true }
        ensures { result.value ≡ self.value }
    {
        let Raw { at, alloc } = self;
        Parts {
            ptr: at as *mut Kept,
            alloc,
        }
    }
}

/// A handle. All zeros is an empty one.
#[repr(C)]
pub struct Handle {
    pub raw: Raw,
    full: bool,
    ghost told: { full ≡ raw.full },
}

impl Drop for Handle {
    fn drop(self) {
        drop(self.into_box());
    }
}

impl Handle {
    ghost use Rattle.std.specs.Option.{MatchOption};

    /// An empty handle.
    pub fn none(alloc: Global) -> Handle
        ensures { result.raw.full ≡ false }
    {
        Handle {
            raw: Raw::none(alloc),
            full: false,
        }
    }

    /// A handle of what the box has.
    pub fn of(kept: Box<Kept, Global>) -> Handle
        ensures full { result.raw.full ≡ true }
        ensures value { result.raw.value ≡ kept.value }
    {
        Handle {
            raw: Raw::of_parts(Parts::of(kept)),
            full: true,
        }
    }

    fn into_box(self) -> Option<Box<Kept, Global>>
        ensures { MatchOption result (self.raw.full ≡ false)
            (λ b. (self.raw.full ≡ true) × (b.value ≡ self.raw.value)) }
    {
        let Handle { raw, full } = self;
        if full {
            Some(raw.into_parts().into_box())
        } else {
            None
        }
    }

    /// Takes what the handle owns, if it owns anything, and leaves it empty.
    pub fn take(&mut self, alloc: Global) -> Option<Box<Kept, Global>>
        ensures taken { MatchOption result (self.old.raw.full ≡ false)
            (λ b. (self.old.raw.full ≡ true) × (b.value ≡ self.old.raw.value)) }
        ensures left { self.new.raw.full ≡ false }
    {
        replace(self, Handle::none(alloc)).into_box()
    }
}
