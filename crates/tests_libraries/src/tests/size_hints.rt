//! Iterators that tell nothing of how many items they have, or too much.

ghost use Rattle.std.specs.Prelude.{◌≡◌, IfSome};
ghost use Rattle.std.specs.Iterator.{UpTo, item_count};
ghost use Rattle.std.specs.Iterator.SizeHint.{IsWithinCount};
ghost use Rattle.std.specs.Slice.Iter.{iter_rest};

use ascii::{AsciiChar, AsciiStr, NewBuffer, Text};
use std::alloc::{AllocError, Global};
use std::process::Abort;
use std::slice;
use testing::{ascii, assert_row};

/// The items of a slice, with a bound from above that is told, but is no less than their number.
#[derive(Drop)]
struct Loose<'a, T> {
    items: slice::Iter<'a, T>,
    most: Option<usize>,
}

impl<T: Copy + Drop> Iterator for Loose<'_, T> {
    type Item = T;

    ghost remaining = { item_count (λ loose. iter_rest loose.items) };

    fn next(&mut self) -> Option<T> {
        self.items.next().copied()
    }

    fn size_hint(&self) -> (usize, Option<usize>) {
        let left = self.items.len();
        (0, self.most.map(|most| most.max(left)))
    }
}

const TEXT: &str = "abcdefghijklmnopqrstuvwxyz0123456";

const PIECES: &str = "a,b,c,d,e,f,g,h,i,j,k,l,m,n,o,p,q,r,s,t,u,v,w,x,y,z,0,1,2,3,4,5,6";

/// Fails the test if a string is not what the first `length` characters are collected to, or not
/// `TEXT` after the others are appended.
fn compare_chars<B: NewBuffer<Alloc = Global, Refusal = AllocError>, R: Abort + AllocGlobal>(
    rt: &R,
    chars: &[AsciiChar],
    length: usize,
    most: Option<usize>,
) {
    let (front, others) = chars.split_at(length.min(chars.len()));
    let items = front.iter();
    let mut string = Text::<B>::collect_chars(rt.alloc(), Loose { items, most }).expect(
        rt, "refused",
    );
    assert_row!(rt; Some(string.as_ascii_str().as_str()), TEXT.get(..length));
    let items = others.iter();
    string
        .extend_chars(Loose { items, most })
        .expect(rt, "refused");
    assert_row!(rt; string.as_ascii_str().as_str(), TEXT);
}

/// Fails the test if a string is not what the first `length` views are collected to, or not `TEXT`
/// after the others are appended.
fn compare_views<B: NewBuffer<Alloc = Global, Refusal = AllocError>, R: Abort + AllocGlobal>(
    rt: &R,
    views: &[AsciiStr<'_>],
    length: usize,
    most: Option<usize>,
) {
    let (front, others) = views.split_at(length.min(views.len()));
    let items = front.iter();
    let mut string = Text::<B>::collect_strs(rt.alloc(), Loose { items, most }).expect(
        rt, "refused",
    );
    assert_row!(rt; Some(string.as_ascii_str().as_str()), TEXT.get(..length));
    let items = others.iter();
    string
        .extend_strs(Loose { items, most })
        .expect(rt, "refused");
    assert_row!(rt; string.as_ascii_str().as_str(), TEXT);
}

#[test]
fn all_items_come(rt: HostRuntime) {
    let chars = ascii(TEXT).to_chars(rt.alloc()).expect(&rt, "refused");
    let views: Vec<AsciiStr<'_>> = ascii(PIECES)
        .split(AsciiChar::Comma)
        .collect(rt.alloc())
        .expect(&rt, "refused");
    assert_row!(rt; (chars.len(), views.len()), (33, 33));
    for most in [None, Some(usize::MAX)] {
        for length in [0, 3, 33] {
            compare_chars::<Vec<u8>, HostRuntime>(&rt, &chars, length, most);
            compare_views::<Vec<u8>, HostRuntime>(&rt, &views, length, most);
        }
    }
}
