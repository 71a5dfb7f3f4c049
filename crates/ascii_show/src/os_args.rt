//! The arguments after the program's name, as the system gives them.

use std::alloc::{AllocError, Global};
use std::env::{Env, FillError};

/// How many bytes of an argument fit on the stack.
const ROOM: usize = 32_768;

/// The arguments, one after another.
#[derive(Drop)]
pub(crate) struct OsArgs {
    /// each argument and a NUL, which no argument contains
    text: String,
    /// how many arguments there are
    count: usize,
}

impl OsArgs {
    /// Reads the arguments. If they are not valid UTF-8, there are none.
    ///
    /// The room for one argument makes the stack as deep as any later call needs, before anything is
    /// allocated: if memory is short later, an allocation fails, and not the growth of the stack.
    #[inline(never)]
    pub(crate) fn read(rt: &HostRuntime) -> Result<OsArgs, AllocError> {
        let mut room = [0; ROOM];
        let mut bytes = Vec::new(rt.alloc());
        let mut count = 0;
        for before in 0..usize::MAX {
            if !append_arg(rt, before + 1, &mut room, &mut bytes)? {
                break;
            }
            count = before + 1;
        }
        match String::from_utf8(bytes) {
            Ok(text) => Ok(OsArgs { text, count }),
            Err(_) => Ok(OsArgs {
                text: String::new(rt.alloc()),
                count: 0,
            }),
        }
    }

    /// The arguments in order.
    pub(crate) fn views(&self, alloc: Global) -> Result<Vec<&str>, AllocError> {
        let mut views = Vec::with_capacity(alloc, self.count)?;
        for arg in self.text.split('\0').take(self.count) {
            views.push(arg)?;
        }
        Ok(views)
    }
}

/// Appends the argument with a number, counted from 1, and a NUL. Returns `false` if there is no
/// such argument.
fn append_arg(
    rt: &HostRuntime,
    number: usize,
    room: &mut [u8],
    bytes: &mut Vec<u8>,
) -> Result<bool, AllocError> {
    match rt.arg(number, room) {
        Ok(length) => {
            bytes.extend_from_slice(&room[..length])?;
            bytes.push(0)?;
            Ok(true)
        }
        Err(FillError::NotPresent) => Ok(false),
        Err(FillError::TooLong) => append_long_arg(rt, number, bytes),
    }
}

/// Appends an argument that has no room on the stack, and a NUL.
fn append_long_arg(
    rt: &HostRuntime,
    number: usize,
    bytes: &mut Vec<u8>,
) -> Result<bool, AllocError> {
    let start = bytes.len();
    let mut room = ROOM;
    for _ in 0..usize::BITS {
        room = room.saturating_add(room);
        bytes.resize(start.saturating_add(room), 0u8)?;
        match rt.arg(number, &mut bytes[start..]) {
            Ok(length) => {
                bytes.truncate(start + length);
                bytes.push(0)?;
                return Ok(true);
            }
            Err(FillError::NotPresent) => {
                bytes.truncate(start);
                return Ok(false);
            }
            Err(FillError::TooLong) => {}
        }
    }
    Err(AllocError)
}
