//! The modes that show each code by itself: most codes as themselves, and each other by a text of its own.

ghost use Rattle.std.specs.Prelude.{◌≡◌, ℕ, List, [], ◌∷◌, MatchOption, length};
ghost use Rattle.std.specs.List.{All, flat_map};
ghost use Rattle.ascii.specs.Bytes.{IsFirstNot};
ghost use Rattle.ascii_devices.specs.Buffered.{AppendsTo, MayFail, output_state};

use ascii_devices::{BufferedSink, Sink};
use std::alloc::Allocator;

/// What a mode shows of each code.
pub(crate) trait Show {
    // What is shown of a code.
    ghost shown: { ℕ → List ℕ };

    // The codes that are shown as themselves.
    ghost is_plain: { ℕ → Type 0 };

    ghost plain: { (code : ℕ) → is_plain code → shown code ≡ code ∷ [] };

    // What a value must have to show a code.
    ghost is_ready: { Self → Type 0 };

    /// The position of the first code that is not shown as itself.
    fn first_other(codes: &[u8]) -> Option<usize>
        ensures { MatchOption result (All is_plain codes.now)
            (IsFirstNot is_plain codes.now 0 (length codes.now)) };

    /// Appends what is shown of a code that is not shown as itself.
    fn put_other<K: Sink, A: Allocator>(
        &self,
        code: u8,
        buffer: &mut BufferedSink<A>,
        writer: &mut K,
    )
        requires fail { MayFail (output_state K.Sink writer.old buffer.old) }
        requires ready { is_ready self.now }
        requires other { ¬ (is_plain code) }
        ensures { AppendsTo K.Sink writer.old buffer.old writer.new buffer.new (shown code) };
}

/// Appends what is shown of each code. The codes between two that are shown otherwise are appended in
/// one call.
pub(crate) fn put_mapped<S: Show, K: Sink, A: Allocator>(
    show: &S,
    codes: &[u8],
    buffer: &mut BufferedSink<A>,
    writer: &mut K,
)
    requires fail { MayFail (output_state K.Sink writer.old buffer.old) }
    requires ready { S.is_ready show.now }
    ensures { AppendsTo K.Sink writer.old buffer.old writer.new buffer.new
        (flat_map S.shown codes.entry.now) }
{
    let mut remaining = codes;
    'segments: while let Some(place) = S::first_other(remaining) {
        buffer.put_front(writer, remaining, place);
        show.put_other(remaining[place], buffer, writer);
        remaining = &remaining[place + 1..];
    }
    buffer.put(writer, remaining);
}
