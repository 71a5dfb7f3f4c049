//! Walks: the answers of an iterator to a script of ends.

ghost use Rattle.std.specs.Prelude.{◌≡◌, [], IfOk, IsOk};
ghost use Rattle.ascii.specs.Found.{StepsAt};
ghost use Rattle.ascii.specs.Walks.{AnswersTo, WalksLineSpans, WalksLines, WalksPieceSpans, WalksPieces};

use crate::ascii_str::AsciiStr;
use crate::iter::spans::{LineSpan, SplitSpan};
use ascii_base::ascii_char::AsciiChar;
use std::alloc::{AllocError, Allocator};

/// An end of an iterator.
#[derive(Clone, Copy, PartialEq, Eq, Debug)]
pub enum End {
    /// The end that `next` takes from.
    Front,
    /// The end that `next_back` takes from.
    Back,
}

/// Takes the next item from an end of an iterator: `next` for `Front`, `next_back` for `Back`.
///
/// Condition: both steps of the iterator can be called.
///
///     take_end(&mut AsciiStr::literal("x\ny").lines(), End::Back) // Some("y")
///     take_end(&mut AsciiStr::literal("").lines(), End::Front) // None
#[inline]
pub fn take_end<I: DoubleEndedIterator>(items: &mut I, end: End) -> Option<I::Item>
    requires can_next { I.can_next items.old }
    requires can_next_back { I.can_next_back items.old }
    ensures front { end ≡ End.Front → I.next_gives items.old result items.new }
    ensures back { end ≡ End.Back → I.next_back_gives items.old result items.new }
{
    match end {
        End::Front => items.next(),
        End::Back => items.next_back(),
    }
}

/// Returns what an iterator yields for a script of ends, one item for each end, in order.
fn walk<I: DoubleEndedIterator + Drop, A: Allocator>(
    alloc: A,
    mut items: I,
    script: &[End],
) -> Result<Vec<Option<I::Item>, A>, AllocError>
where
    I::Item: Drop,
    requires can { (s : I) → I.can_next s × I.can_next_back s }
    ensures answers { IfOk result (λ answers. (left : I)
        × AnswersTo (StepsAt I.next_gives I.next_back_gives) items script.now answers.items left) }
    ensures empty { script.now ≡ [] → IsOk result }
{
    let mut answers = Vec::with_capacity(alloc, script.len())?;
    for end in script {
        answers.push(take_end(&mut items, *end))?;
    }
    Ok(answers)
}

/// Returns what a split of the view at `on` yields for a script of ends, one item for each end, in
/// order, or an error if the allocation of the list fails. Does not fail for the empty script.
///
///     walk_split(alloc, AsciiStr::literal("a,b"), AsciiChar::Comma, &[End::Back, End::Front, End::Back])? // [Some("b"), Some("a"), None]
pub fn walk_split<'a, A: Allocator>(
    alloc: A,
    view: AsciiStr<'a>,
    on: AsciiChar,
    script: &[End],
) -> Result<Vec<Option<AsciiStr<'a>>, A>, AllocError>
    ensures ends { IfOk result (λ answers. WalksPieces view.entry on script.now answers.items) }
    ensures empty { script.now ≡ [] → IsOk result }
{
    walk(alloc, view.split(on), script)
}

/// Returns what the lines of the view yield for a script of ends, one body for each end, in order,
/// or an error if the allocation of the list fails. Does not fail for the empty script.
///
///     walk_lines(alloc, AsciiStr::literal("a\nb"), &[End::Back, End::Front])? // [Some("b"), Some("a")]
///     walk_lines(alloc, AsciiStr::literal(""), &[End::Front])? // [None]
pub fn walk_lines<'a, A: Allocator>(
    alloc: A,
    view: AsciiStr<'a>,
    script: &[End],
) -> Result<Vec<Option<AsciiStr<'a>>, A>, AllocError>
    ensures ends { IfOk result (λ answers. WalksLines view.entry script.now answers.items) }
    ensures empty { script.now ≡ [] → IsOk result }
{
    walk(alloc, view.lines(), script)
}

/// Returns what a split of the view at `on` with starts yields for a script of ends, one item for
/// each end, in order, or an error if the allocation of the list fails. Does not fail for the empty
/// script.
///
///     walk_split_spans(alloc, AsciiStr::literal("a,b"), AsciiChar::Comma, &[End::Back])? // [Some(SplitSpan { start: 2, text: "b" })]
///     walk_split_spans(alloc, AsciiStr::literal("a,b"), AsciiChar::Comma, &[])? // []
pub fn walk_split_spans<'a, A: Allocator>(
    alloc: A,
    view: AsciiStr<'a>,
    on: AsciiChar,
    script: &[End],
) -> Result<Vec<Option<SplitSpan<'a>>, A>, AllocError>
    ensures ends { IfOk result (λ answers. WalksPieceSpans view.entry on script.now answers.items) }
    ensures empty { script.now ≡ [] → IsOk result }
{
    walk(alloc, view.split_spans(on), script)
}

/// Returns what the lines of the view with their starts and endings yield for a script of ends, one
/// item for each end, in order, or an error if the allocation of the list fails. Does not fail for
/// the empty script.
///
///     walk_line_spans(alloc, AsciiStr::literal("a\nb"), &[End::Front])? // [Some(LineSpan { start: 0, text: "a", ending: Lf })]
///     walk_line_spans(alloc, AsciiStr::literal(""), &[End::Front])? // [None]
pub fn walk_line_spans<'a, A: Allocator>(
    alloc: A,
    view: AsciiStr<'a>,
    script: &[End],
) -> Result<Vec<Option<LineSpan<'a>>, A>, AllocError>
    ensures ends { IfOk result (λ answers. WalksLineSpans view.entry script.now answers.items) }
    ensures empty { script.now ≡ [] → IsOk result }
{
    walk(alloc, view.line_spans(), script)
}
