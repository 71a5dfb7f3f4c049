//! What the error of a source that is not ASCII prints.

use ascii::{bytes, text};
use testing::assert_row;

#[test]
fn printed_error(rt: HostRuntime) {
    let Err(error) = text::as_ascii_str("zoä华") else {
        panic!(rt; "accepted");
    };
    assert_row!(rt; error.description(), "one or more bytes are not ASCII");
    assert_row!(rt; format!(in rt.alloc(); "{error}")
            .expect(&rt, "refused")
            .as_str(), "the byte at index 2 is not ASCII");
    assert_row!(rt; format!(in rt.alloc(); "{error:?}")
            .expect(&rt, "refused")
            .as_str(), "AsAsciiStrError(2)");
    assert!(rt; Err(error) == bytes::as_ascii_str("zoä华".as_bytes()));
}
