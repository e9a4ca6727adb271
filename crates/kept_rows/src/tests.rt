//! Each call once with ample memory.

use crate::{SeenKeys, TopRows};
use std::alloc::AllocError;

#[test]
fn first_of_each_key(rt: HostRuntime) -> Result<(), AllocError> {
    let mut seen = SeenKeys::new(rt.alloc());
    assert!(rt; seen.add(b"b".to_vec(rt.alloc())?)?);
    assert!(rt; seen.add(b"a".to_vec(rt.alloc())?)?);
    assert!(rt; !seen.add(b"b".to_vec(rt.alloc())?)?);
    Ok(())
}

#[test]
fn first_in_order(rt: HostRuntime) -> Result<(), AllocError> {
    let mut top = TopRows::new(rt.alloc(), 3);
    for (key, line) in [(3, b"w"), (1, b"x"), (2, b"y"), (1, b"z")] {
        top.add(rt.alloc(), &[key], line)?;
    }
    let bytes = top.into_bytes(rt.alloc())?;
    assert!(rt; bytes.as_slice() == b"xzy".as_slice());
    Ok(())
}
