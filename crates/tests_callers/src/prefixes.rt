//! Callers that take a few items from the front.

ghost use Rattle.std.specs.Prelude.{◌≡◌, IfOk, map, take};
ghost use Rattle.ascii.specs.Lines.{OfLines, bodies};
ghost use Rattle.ascii.specs.Pieces.{OfPieces};
ghost use Rattle.ascii.specs.Spans.{OfLineSpans, OfPieceSpans, line_in, piece_in};
ghost use Rattle.ascii.specs.View.{text_of};

use ascii::iter::{LineSpan, SplitSpan};
use ascii::{AsciiChar, AsciiStr};
use std::alloc::{AllocError, Global};

/// At most `n` pieces of a view, from the front.
pub fn first_pieces<'a>(
    alloc: Global,
    view: AsciiStr<'a>,
    on: AsciiChar,
    n: usize,
) -> Result<Vec<AsciiStr<'a>>, AllocError>
    ensures { IfOk result (λ given.
        OfPieces view.entry on (λ pieces. map text_of given.items ≡ take n pieces)) }
{
    view.split(on).take(n).collect(alloc)
}

/// The bodies of at most `n` lines of a view, from the front.
pub fn first_bodies<'a>(
    alloc: Global,
    view: AsciiStr<'a>,
    n: usize,
) -> Result<Vec<AsciiStr<'a>>, AllocError>
    ensures { IfOk result (λ given.
        OfLines view.entry (λ lines. map text_of given.items ≡ take n (bodies lines))) }
{
    view.lines().take(n).collect(alloc)
}

/// At most `n` pieces of a view with their starts, from the front.
pub fn first_piece_spans<'a>(
    alloc: Global,
    view: AsciiStr<'a>,
    on: AsciiChar,
    n: usize,
) -> Result<Vec<SplitSpan<'a>>, AllocError>
    ensures { IfOk result (λ given.
        OfPieceSpans view.entry on (λ spans. map piece_in given.items ≡ take n spans)) }
{
    view.split_spans(on).take(n).collect(alloc)
}

/// At most `n` lines of a view with their starts and endings, from the front.
pub fn first_line_spans<'a>(
    alloc: Global,
    view: AsciiStr<'a>,
    n: usize,
) -> Result<Vec<LineSpan<'a>>, AllocError>
    ensures { IfOk result (λ given.
        OfLineSpans view.entry (λ spans. map line_in given.items ≡ take n spans)) }
{
    view.line_spans().take(n).collect(alloc)
}
