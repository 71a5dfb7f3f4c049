//! Callers of the iterators that tell the start of each piece and each line.

ghost use Rattle.std.specs.Prelude.{◌≡◌, IfOk, length, map, reverse};
ghost use Rattle.ascii.specs.Spans.{OfLineSpans, OfPieceSpans, line_in, piece_in};

use ascii::iter::{LineSpan, SplitSpan};
use ascii::{AsciiChar, AsciiStr};
use std::alloc::{AllocError, Global};

/// The number of pieces of a view between separators.
pub fn piece_span_count(view: AsciiStr<'_>, on: AsciiChar) -> usize
    ensures { OfPieceSpans view.entry on (λ spans. result ≡ length spans) }
{
    view.split_spans(on).count()
}

/// The starts of the pieces of a view.
pub fn piece_starts(
    alloc: Global,
    view: AsciiStr<'_>,
    on: AsciiChar,
) -> Result<Vec<usize>, AllocError>
    ensures { IfOk result (λ starts.
        OfPieceSpans view.entry on (λ spans. starts.items ≡ map (λ span. span.start) spans)) }
{
    view.split_spans(on).map(|span| span.start).collect(alloc)
}

/// The starts of the pieces of a view, by a loop.
pub fn piece_starts_by_for(
    alloc: Global,
    view: AsciiStr<'_>,
    on: AsciiChar,
) -> Result<Vec<usize>, AllocError>
    ensures { IfOk result (λ starts.
        OfPieceSpans view.entry on (λ spans. starts.items ≡ map (λ span. span.start) spans)) }
{
    let mut starts = Vec::new(alloc);
    for span in view.split_spans(on) {
        starts.push(span.start)?;
    }
    Ok(starts)
}

/// The pieces of a view with their starts, the last one first.
pub fn piece_spans_reversed<'a>(
    alloc: Global,
    view: AsciiStr<'a>,
    on: AsciiChar,
) -> Result<Vec<SplitSpan<'a>>, AllocError>
    ensures { IfOk result (λ given.
        OfPieceSpans view.entry on (λ spans. map piece_in given.items ≡ reverse spans)) }
{
    view.split_spans(on).rev().collect(alloc)
}

/// The number of lines of a view.
pub fn line_span_count(view: AsciiStr<'_>) -> usize
    ensures { OfLineSpans view.entry (λ spans. result ≡ length spans) }
{
    view.line_spans().count()
}

/// The starts of the lines of a view.
pub fn line_starts(alloc: Global, view: AsciiStr<'_>) -> Result<Vec<usize>, AllocError>
    ensures { IfOk result (λ starts.
        OfLineSpans view.entry (λ spans. starts.items ≡ map (λ span. span.start) spans)) }
{
    view.line_spans().map(|span| span.start).collect(alloc)
}

/// The starts of the lines of a view, by a loop.
pub fn line_starts_by_for(alloc: Global, view: AsciiStr<'_>) -> Result<Vec<usize>, AllocError>
    ensures { IfOk result (λ starts.
        OfLineSpans view.entry (λ spans. starts.items ≡ map (λ span. span.start) spans)) }
{
    let mut starts = Vec::new(alloc);
    for span in view.line_spans() {
        starts.push(span.start)?;
    }
    Ok(starts)
}

/// The lines of a view with their starts and endings, the last one first.
pub fn line_spans_reversed<'a>(
    alloc: Global,
    view: AsciiStr<'a>,
) -> Result<Vec<LineSpan<'a>>, AllocError>
    ensures { IfOk result (λ given.
        OfLineSpans view.entry (λ spans. map line_in given.items ≡ reverse spans)) }
{
    view.line_spans().rev().collect(alloc)
}
