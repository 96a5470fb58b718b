// What a handle has.

use crate::handle::Handle;
use std::test::Fail;

#[test]
fn what_is_put_in_comes_out(rt: HostRuntime) -> Result<(), Fail> {
    let alloc = rt.alloc();
    let handle = Handle::of(Box::new(alloc, 7u64)?);
    let Some(value) = handle.into_box() else {
        return Err(Fail::new("it has no value"));
    };
    assert_eq!(rt; *value, 7);
    Ok(())
}

#[test]
fn an_empty_one_has_nothing(rt: HostRuntime) -> Result<(), Fail> {
    let handle: Handle<u64> = Handle::empty(rt.alloc());
    assert!(rt; handle.into_box().is_none());
    Ok(())
}
