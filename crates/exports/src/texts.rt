//! The kernels, and texts that are changed, compared and hashed.

use crate::answer::{Answer, Made};
use ascii::{AsciiStr, AsciiString, BoxedAsciiStr, CowAsciiStr, RcAsciiStr, kernels};
use ascii_keys::FoldedStr;
use ascii_run::{ArrayAsciiString, SmallAsciiString};
use std::alloc::{AllocError, Global};
use std::cmp::Ordering;
use std::hash::{DefaultHasher, Hash, Hasher};

/// The position of the first non-ASCII byte, and those of the first and the last one that is not whitespace.
pub fn ask_kernels(source: &[u8], answer: &mut Answer) {
    let first = kernels::first_not_whitespace(source);
    let last = kernels::last_not_whitespace(source);
    answer.put((kernels::first_other(source), first, last));
}

/// Changes the letters of bytes to upper or to lower case.
pub fn ask_case_in_place(to_upper: bool, source: &mut [u8], answer: &mut Answer) {
    if to_upper {
        kernels::upper_in_place(source);
    } else {
        kernels::lower_in_place(source);
    }
    let changed: &[u8] = source;
    answer.put(changed);
}

/// Whether any two lists of bytes are equal, ignoring case.
pub fn ask_equal_bytes(first: &[u8], second: &[u8], answer: &mut Answer) {
    answer.put(kernels::eq_ignore_case(first, second));
}

/// A text without the whitespace at both ends, at its start and at its end.
pub fn ask_trims(source: AsciiStr, answer: &mut Answer) {
    answer.put((source.trim(), source.trim_start(), source.trim_end()));
}

/// Copies of a text in upper and in lower case, and a string that is changed in place to them.
pub fn ask_cases(alloc: Global, source: AsciiStr, answer: &mut Answer) {
    answer.put_result(source.to_ascii_uppercase(alloc));
    answer.put_result(source.to_ascii_lowercase(alloc));
    let Ok(mut string) = source.to_ascii_string(alloc) else {
        return answer.put(AllocError);
    };
    string.make_ascii_uppercase();
    answer.put(string.as_ascii_str());
    string.make_ascii_lowercase();
    answer.put(string);
}

/// Whether two texts are equal and which is the lesser one, with case and without; and whether the order that may be missing
/// is there.
pub fn ask_comparisons(first: AsciiStr, second: AsciiStr, answer: &mut Answer) {
    let (folded, other_folded) = (FoldedStr::new(first), FoldedStr::new(second));
    let (order, is_bytes) = (first.cmp(&second), first.eq_bytes(second.as_bytes()));
    answer.put((first == second, first.eq_str(second.as_str()), is_bytes));
    answer.put((first.eq_ignore_ascii_case(second), folded == other_folded));
    answer.put((order, folded.cmp(&other_folded)));
    let is_some = first.partial_cmp(&second) == Some(order);
    answer.put((is_some, folded < other_folded));
}

/// Whether two texts are equal and which is the lesser one, also as what may be missing; as strings, as inline strings, in
/// boxes, as shared texts, and as a borrowed and an owned one.
pub fn ask_owned_comparisons(
    alloc: Global,
    first: AsciiStr,
    second: AsciiStr,
    answer: &mut Answer,
) {
    let string = first.to_ascii_string(alloc);
    put_comparison(string, second.to_ascii_string(alloc), answer);
    let small = SmallAsciiString::from_ascii_str(alloc, first);
    put_comparison(
        small,
        SmallAsciiString::from_ascii_str(alloc, second),
        answer,
    );
    let boxed = BoxedAsciiStr::from_ascii_str(alloc, first);
    put_comparison(boxed, BoxedAsciiStr::from_ascii_str(alloc, second), answer);
    let shared = RcAsciiStr::from_ascii_str(alloc, first);
    put_comparison(shared, RcAsciiStr::from_ascii_str(alloc, second), answer);
    let owned = owned_cow(second.to_ascii_string(alloc));
    put_comparison(Ok(CowAsciiStr::from(first)), owned, answer);
}

fn owned_cow<'a>(made: Made<AsciiString>) -> Made<CowAsciiStr<'a>> {
    Ok(made?.into())
}

fn put_comparison<T: Ord + Drop>(first: Made<T>, second: Made<T>, answer: &mut Answer) {
    answer.put_result(compare(first, second));
}

fn compare<T: Ord + Drop>(first: Made<T>, second: Made<T>) -> Made<(bool, Ordering, bool)> {
    let (first, second) = (first?, second?);
    let order = first.cmp(&second);
    let is_some = first.partial_cmp(&second) == Some(order);
    Ok((first == second, order, is_some))
}

/// The hashes of a text: as a view, ignoring case, as each type of owned text, as borrowed and as owned `Cow` text, and in
/// an array of 32 bytes if it fits; and of its first character.
pub fn ask_hashes(alloc: Global, source: AsciiStr, answer: &mut Answer) {
    answer.put((hash_of(source), hash_of(FoldedStr::new(source))));
    put_hash(source.to_ascii_string(alloc), answer);
    put_hash(SmallAsciiString::from_ascii_str(alloc, source), answer);
    put_hash(BoxedAsciiStr::from_ascii_str(alloc, source), answer);
    put_hash(RcAsciiStr::from_ascii_str(alloc, source), answer);
    put_hash(Ok(CowAsciiStr::<Global>::from(source)), answer);
    put_hash(owned_cow(source.to_ascii_string(alloc)), answer);
    if let Ok(array) = ArrayAsciiString::<32>::from_ascii_str((), source) {
        answer.put(hash_of(array));
    }
    if let Some(first) = source.first() {
        answer.put(hash_of(first));
    }
}

fn put_hash<T: Hash + Drop>(made: Made<T>, answer: &mut Answer) {
    answer.put_result(made.map(hash_of));
}

fn hash_of<T: Hash + Drop>(value: T) -> u64 {
    let mut hasher = DefaultHasher::new();
    value.hash(&mut hasher);
    hasher.finish()
}
