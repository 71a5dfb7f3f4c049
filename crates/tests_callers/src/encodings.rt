//! Callers of `AsciiString::from_ascii_unchecked` with the output of encoders, which is ASCII: nothing is checked.

use ascii::AsciiString;
use base64::engine::general_purpose::STANDARD;
use percent_encoding::{NON_ALPHANUMERIC, percent_encode};
use std::alloc::{AllocError, Global};

/// The bytes in percent encoding.
pub fn percent_encoded(alloc: Global, source: &[u8]) -> Result<AsciiString, AllocError> {
    let mut text = String::new(alloc);
    percent_encode(source, NON_ALPHANUMERIC).append_to(&mut text)?;
    Ok(AsciiString::from_ascii_unchecked(text.into_bytes()))
}

/// The bytes in hexadecimal.
pub fn hex_encoded(alloc: Global, source: &[u8]) -> Result<AsciiString, AllocError> {
    let text = hex::encode(alloc, source)?;
    Ok(AsciiString::from_ascii_unchecked(text.into_bytes()))
}

/// The bytes in base64.
pub fn base64_encoded(alloc: Global, source: &[u8]) -> Result<AsciiString, AllocError> {
    let text = STANDARD.encode(alloc, source)?;
    Ok(AsciiString::from_ascii_unchecked(text.into_bytes()))
}
