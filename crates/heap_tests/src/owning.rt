//! The stable set of a long chain.

use crate::programs::program;
use object_types::heap::Heap;
use object_types::records::Mode;
use object_types::references::Ref;
use ownership::stable::stable_set;
use std::alloc::{AllocError, Global};
use std::test::Fail;

const T: Ref = Ref { ty: 1, serial: 1 };

/// So many objects of type 3, the first closed and t's, and each closed and owned by the one before.
fn chain_of_owners(alloc: Global, count: u32) -> Result<Heap, AllocError> {
    let mut h = Heap::empty(alloc);
    let mut owner = T;
    for serial in 1..count {
        let o = Ref { ty: 3, serial };
        let next = Ref {
            ty: 3,
            serial: serial + 1,
        };
        h.set_status(o, Mode::Closed, owner)?;
        h.set_owned(o, next, true)?;
        owner = o;
    }
    Ok(h)
}

/// How many objects of such a chain t's stable set has.
fn count_stable(alloc: Global, count: u32) -> Result<usize, AllocError> {
    let h = chain_of_owners(alloc, count)?;
    let program = program(alloc)?;
    let found = stable_set(alloc, &program, &h, T)?;
    Ok(found.len())
}

#[test]
fn a_long_chain_of_owners(rt: HostRuntime) -> Result<(), Fail> {
    assert!(rt; count_stable(rt.alloc(), 20001)? == 20001);
    Ok(())
}
