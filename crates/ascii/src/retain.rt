//! Edits of a string that keep some of its characters.

ghost use Rattle.std.specs.Prelude.{◌<◌, take};
ghost use Rattle.std.specs.Str.{IsAscii};
ghost use Rattle.ascii.specs.Retain.{RetainsChars};
ghost use Rattle.ascii.specs.StringState.{EditsInPlace};

use crate::ascii_string::Text;
use crate::buffer::Buffer;
use ascii_base::ascii_char::AsciiChar;

impl<B: Buffer> Text<B> {
    /// Removes the characters for which `keep` returns `false`. It is called once for each character,
    /// in order. Does not allocate, and keeps the capacity.
    ///
    /// Condition: `keep` may be called any number of times with any character.
    ///
    /// A closure whose body has no condition of its own meets it. To remove one character use `remove`.
    ///
    ///     let mut text = AsciiStr::literal("a-b-c").to_ascii_string(alloc)?;
    ///     text.retain(|ch| ch != AsciiChar::Minus);
    ///     text // "abc"
    ///     text.retain(|_| false);
    ///     text // ""
    pub fn retain<F: FnMut(AsciiChar) -> bool>(&mut self, keep: F)
        requires { F.IsAlwaysCallable keep }
        ensures kept { RetainsChars F.FnMut keep self.old.text self.new.text }
        ensures room { EditsInPlace self.new.text self.old self.new }
    {
        let kept = move_kept(self.bytes.bytes_mut(), keep);
        self.bytes.keep_front(kept);
    }
}

/// Moves the characters for which `keep` returns `true` to the start, and returns how many there are.
fn move_kept<F: FnMut(AsciiChar) -> bool>(bytes: &mut [u8], mut keep: F) -> usize
    requires ascii { IsAscii bytes.old }
    requires callable { F.IsAlwaysCallable keep }
    ensures kept { RetainsChars F.FnMut keep bytes.old (take result bytes.new) }
    ensures ascii { IsAscii bytes.new }
{
    let mut kept = 0;
    for at in 0..bytes.len() {
        let ch = AsciiChar::from_ascii_unchecked(bytes[at]);
        let stays = keep(ch);
        bytes[kept] = ch.as_byte();
        kept += stays as usize;
    }
    kept
}
