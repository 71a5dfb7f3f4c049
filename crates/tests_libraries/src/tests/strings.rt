//! What no clause states of owned text: that memory is given back, and what an error prints.

use ascii::{AsciiString, vec};
use testing::{ascii, assert_row};

#[test]
fn unused_capacity_is_given_back(rt: HostRuntime) {
    let mut string = AsciiString::with_capacity(rt.alloc(), 100).expect(&rt, "refused");
    string.push_str(ascii("ab")).expect(&rt, "refused");
    string.shrink_to_fit().expect(&rt, "refused");
    assert_row!(rt; string.capacity(), 2);
}

#[test]
fn error_of_rejected_bytes(rt: HostRuntime) {
    let Err(refusal) = vec::into_ascii_string(vec![in rt.alloc(); 127, 128, 255].expect(
        &rt, "refused",
    )) else {
        panic!(rt; "accepted");
    };
    assert_row!(rt; format!(in rt.alloc(); "{refusal}")
            .expect(&rt, "refused")
            .as_str(), "the byte at index 1 is not ASCII");
    assert_row!(rt; format!(in rt.alloc(); "{refusal:?}")
            .expect(&rt, "refused")
            .as_str(), "AsAsciiStrError(1)");
    let Err(again) = vec::from_ascii(refusal.into_source()) else {
        panic!(rt; "accepted");
    };
    assert_row!(rt; again.into_source().as_slice(), [127, 128, 255].as_slice());
}
