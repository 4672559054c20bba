//! What the machine keeps below the way that it follows.

ghost use Rattle.std.specs.Prelude.{◌≡◌, ◌+◌, ◌<◌, ◌≤◌, ℕ, [], ◌∷◌, ◌++◌, OnErr, OnOk, take, vec_len, vec_capacity, if◌then◌else◌, ◌==◌, true};
ghost use Rattle.fancy_trail.specs.Layers.{saves, is_one, earlier, branches_in, region_by, TookLast};
ghost use Rattle.fancy_trail.specs.Ways.{ends_kind};

use std::alloc::AllocError;

/// What a layer is.
#[derive(Clone, Copy, PartialEq, Eq, Debug)]
pub enum Kind {
    /// A branch that was saved.
    Branch,
    /// A part of which the first way that stops is taken.
    Atom,
    /// A look-around, which looks behind or ahead.
    Look(bool),
    /// A negated look-around, which looks behind or ahead, with the way that is taken where it finds nothing.
    Denial(bool),
    /// A condition, with its second branch.
    Condition,
}

/// A region that is open, or saved branches: a way, with the length that the log had then, and where the region round it is.
/// The branches of one layer stand at consecutive places, one at each, and are otherwise the same. The last place's is taken
/// first.
#[derive(Clone, Copy, PartialEq, Eq, Debug)]
pub struct Layer {
    pub kind: Kind,
    /// The number of the instruction that made it. No answer rests on it.
    pub by: usize,
    /// Where the way, or what follows a look-around, goes on.
    pub at: usize,
    /// Where the first of its branches stands, a byte offset; `place` is that of the last. What is no `Branch` has one place.
    pub from: usize,
    /// A byte offset.
    pub place: usize,
    /// Where the match starts, as a byte offset.
    pub kept: usize,
    /// Consumed text ends here at the latest.
    pub limit: usize,
    /// How many writes the log held.
    pub log: usize,
    /// How many layers stand up to the innermost region below, 0 where there is none.
    pub region: usize,
}

/// Whether a look-around from a place may end at another: one that looks behind ends where it began.
fn ends(behind: bool, from: usize, place: usize) -> bool
    ensures { result ≡ (if behind then place == from else true) }
{
    if behind {
        return place == from;
    }
    true
}

/// Whether a way that stops at a place ends the region of a layer of this kind.
pub fn is_ended(kind: Kind, from: usize, place: usize) -> bool
    ensures { result ≡ ends_kind kind from place }
{
    match kind {
        Kind::Branch => true,
        Kind::Atom => true,
        Kind::Look(behind) => ends(behind, from, place),
        Kind::Denial(behind) => ends(behind, from, place),
        Kind::Condition => true,
    }
}

/// Whether each way that stops ends the region of a layer of this kind.
pub fn is_ended_by_any(kind: Kind) -> bool
    ensures { result ≡ true → (from p : ℕ) → ends_kind kind from p ≡ true }
{
    match kind {
        Kind::Atom | Kind::Condition => true,
        Kind::Look(behind) | Kind::Denial(behind) => !behind,
        Kind::Branch => false,
    }
}

/// Whether a layer of this kind saves a branch.
pub fn is_saved(kind: Kind) -> bool
    ensures { result ≡ is_one (saves kind) }
{
    match kind {
        Kind::Branch | Kind::Denial(_) | Kind::Condition => true,
        Kind::Atom | Kind::Look(_) => false,
    }
}

/// At how many places before its own a layer saves a branch too.
pub fn earlier(layer: Layer) -> usize
    ensures { result ≡ earlier layer }
{
    match layer.kind {
        Kind::Branch => layer.place.saturating_sub(layer.from),
        Kind::Atom | Kind::Look(_) | Kind::Denial(_) | Kind::Condition => 0,
    }
}

/// How many layers stand up to the innermost region, where this layer is the last of so many.
pub fn region_by(layer: Layer, count: usize) -> usize
    ensures { result ≡ region_by count layer }
{
    match layer.kind {
        Kind::Branch => layer.region,
        Kind::Atom | Kind::Look(_) | Kind::Denial(_) | Kind::Condition => count,
    }
}

/// Makes room for so many more layers.
#[inline(never)]
fn make_room(layers: &mut Vec<Layer>, count: usize) -> Result<(), AllocError>
    ensures items { layers.new.items ≡ layers.old.items }
    ensures room { OnOk result (vec_len layers.new + count ≤ vec_capacity layers.new) }
{
    layers.reserve(count)
}

/// Puts a layer on the others. Most often there is room for it.
#[inline]
pub fn put_layer(layers: &mut Vec<Layer>, layer: Layer) -> Result<(), AllocError>
    ensures items { OnOk result (layers.new.items ≡ layers.old.items ++ layer ∷ []) }
    ensures refused { OnErr result (layers.new.items ≡ layers.old.items) }
    ensures len { OnOk result (vec_len layers.new ≡ vec_len layers.old + 1) }
{
    if layers.len() >= layers.capacity() {
        make_room(layers, 1)?;
    }
    layers.push_reserved(layer);
    Ok(())
}

/// Puts two layers on the others, the lower one first. Most often there is room for them.
#[inline(always)]
pub fn put_two(layers: &mut Vec<Layer>, lower: Layer, upper: Layer) -> Result<(), AllocError>
    ensures items { OnOk result
        (layers.new.items ≡ (layers.old.items ++ lower ∷ []) ++ upper ∷ []) }
    ensures refused { OnErr result (layers.new.items ≡ layers.old.items) }
{
    if layers.capacity() - layers.len() < 2 {
        make_room(layers, 2)?;
    }
    layers.push_reserved(lower);
    layers.push_reserved(upper);
    Ok(())
}

/// Keeps the lowest layers, so many.
pub fn cut(layers: &mut Vec<Layer>, branches: &mut usize, len: usize)
    requires counted { branches.old ≡ branches_in layers.old.items }
    requires fits { len ≤ vec_len layers.old }
    ensures kept { layers.new.items ≡ take len layers.old.items }
    ensures counted { branches.new ≡ branches_in layers.new.items }
    ensures fewer { branches.new ≤ branches.old }
{
    'layers: while layers.len() > len {
        let Some(layer) = layers.pop() else {
            return;
        };
        *branches -= earlier(layer);
        if is_saved(layer.kind) {
            *branches -= 1;
        }
    }
}

/// Takes the last layer, or the last branch of it where it saves more: then the layer stays with the others. It is answered as
/// it stood.
pub fn take_last(layers: &mut Vec<Layer>) -> Option<Layer>
    ensures { TookLast result layers.old.items layers.new.items }
{
    let len = layers.len();
    if len == 0 {
        return None;
    }
    let layer = layers[len - 1];
    if earlier(layer) > 0 {
        layers[len - 1].place = layer.place - 1;
    } else {
        layers.pop();
    }
    Some(layer)
}
