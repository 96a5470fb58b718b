// Scripts that are run whole, into a buffer of the caller.

use std::alloc::Global;
use std::test::Fail;

/// Three times each number.
pub const TRIPLE: &[u8] =
    b"job triple(x: ro array, y: wo array) { for k in 0..len(x) { y[k] = x[k] * 3; } }\n\
    array x 4 = 1 2 3 4\narray y 4\nschedule h triple(x, y)\ncomplete h\nprint y\n";

#[test]
fn a_script_prints_into_the_buffer(rt: HostRuntime) -> Result<(), Fail> {
    let mut out = [0u8; 64];
    let mut len = 0usize;
    let status = frame_calls::run_script(rt.alloc(), TRIPLE, false, b"", &mut out, &mut len);
    assert_eq!(rt; status, 0);
    assert_eq!(rt; len, 18);
    assert_eq!(rt; out[..18], *b"y = [3, 6, 9, 12]\n".as_slice());
    Ok(())
}

#[test]
fn a_short_buffer_has_the_first_bytes(rt: HostRuntime) -> Result<(), Fail> {
    let mut out = [0u8; 5];
    let mut len = 0usize;
    let status = frame_calls::run_script(rt.alloc(), TRIPLE, false, b"", &mut out, &mut len);
    assert_eq!(rt; status, 7);
    assert_eq!(rt; len, 18);
    assert_eq!(rt; out[..], *b"y = [".as_slice());
    Ok(())
}

// What a call with a buffer comes to: its status, and the length of the text.
fn run_triple(alloc: Global, out: &mut [u8]) -> (u8, usize) {
    let mut len = 0usize;
    let status = frame_calls::run_script(alloc, TRIPLE, false, b"", out, &mut len);
    (status, len)
}

#[test]
fn a_buffer_that_is_as_long_as_the_text_has_room(rt: HostRuntime) -> Result<(), Fail> {
    let mut out = [0u8; 18];
    assert_eq!(rt; run_triple(rt.alloc(), &mut out), (0, 18));
    assert_eq!(rt; out[..], *b"y = [3, 6, 9, 12]\n".as_slice());
    Ok(())
}

#[test]
fn a_buffer_that_is_one_byte_shorter_has_none(rt: HostRuntime) -> Result<(), Fail> {
    let mut out = [0u8; 17];
    assert_eq!(rt; run_triple(rt.alloc(), &mut out), (7, 18));
    assert_eq!(rt; out[..], *b"y = [3, 6, 9, 12]".as_slice());
    Ok(())
}

#[test]
fn a_buffer_without_bytes_tells_the_length(rt: HostRuntime) -> Result<(), Fail> {
    let mut out = [0u8; 0];
    assert_eq!(rt; run_triple(rt.alloc(), &mut out), (7, 18));
    Ok(())
}

// Three lines of 60,005 bytes, of which the run writes some at a time; the buffer ends within the second.
#[test]
fn a_long_text_is_counted_to_its_end(rt: HostRuntime) -> Result<(), Fail> {
    let script = b"array x 20000\nprint x\nprint x\nprint x\n";
    let mut out = vec![in rt.alloc(); 0u8; 100_000]?;
    let mut len = 0usize;
    let status = frame_calls::run_script(rt.alloc(), script, false, b"", &mut out, &mut len);
    assert_eq!(rt; (status, len), (7, 180_015));
    Ok(())
}
