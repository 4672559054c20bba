use crate::memory::MemoryStore;
use crate::put_in_place;
use std::alloc::Global;
use std::test::Fail;

/// What is there after a file that holds `old` was rewritten to `the new text`.
#[derive(Clone, Copy)]
struct Left {
    is_old: bool,
    is_new: bool,
    /// Whether a new file is beside it.
    is_beside: bool,
}

/// Rewrites a file, where the call after so many fails.
fn rewritten(alloc: Global, calls: usize) -> Result<Left, Fail> {
    let mut store = MemoryStore {
        alloc,
        file: Vec::from_slice(alloc, b"old")?,
        beside: None,
        calls_left: calls,
    };
    let _ = put_in_place(&mut store, b"the new text");
    Ok(Left {
        is_old: store.file.as_slice() == b"old".as_slice(),
        is_new: store.file.as_slice() == b"the new text".as_slice(),
        is_beside: store.beside.is_some(),
    })
}

#[test]
fn file_is_the_old_one_or_the_whole_new_one(rt: HostRuntime) -> Result<(), Fail> {
    for calls in 0..4usize {
        let left = rewritten(rt.alloc(), calls)?;
        assert!(rt; left.is_old, "call {calls}");
        assert!(rt; !left.is_beside, "call {calls}");
    }
    let left = rewritten(rt.alloc(), 4)?;
    assert!(rt; left.is_new);
    assert!(rt; !left.is_beside);
    Ok(())
}
