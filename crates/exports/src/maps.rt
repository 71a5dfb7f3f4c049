//! Maps whose keys are texts, sets of texts, and std's maps with folded texts as keys.

use crate::answer::{Answer, Made, Put};
use crate::steps::Step;
use ascii::AsciiStr;
use ascii_keys::{AsciiMap, AsciiSet, FoldedMap, FoldedSet, FoldedStr, FoldedString};
use std::alloc::Global;
use std::collections::{BTreeMap, HashMap};
use std::hash::Hash;

/// What steps over a map return, each with the length of the map: 0 inserts the number at the step's text, 1 gets, 2 removes,
/// 3 adds the number to the one there, 4 yields all entries, and any other kind looks whether the key is there. First of a map
/// in which keys differ by case, and then of one that ignores case. In that one 3 puts the number first if there is none. Of
/// the first map 4 yields the values too, and of the second the keys. Then of two sets: 0 adds the text, 4 yields all texts,
/// and each step looks whether it is there. 6 clears what differs by case.
pub fn ask_maps(alloc: Global, texts: AsciiStr, steps: &[Step], answer: &mut Answer) {
    let (mut map, mut folded) = (AsciiMap::new(alloc), FoldedMap::new(alloc));
    let mut set = AsciiSet::new(alloc);
    let mut folded_set = FoldedSet::new(alloc);
    for step in steps {
        let key = step.text(texts);
        put_step(&mut map, *step, key, answer);
        put_folded_step(&mut folded, *step, key, answer);
        match step.kind {
            0 => {
                answer.put_result(set.insert(key));
                answer.put_result(folded_set.insert(key));
            }
            4 => {
                for text in set.iter().chain(folded_set.iter()) {
                    answer.put(text);
                }
            }
            6 => set.clear(),
            _ => (),
        }
        answer.put((set.contains(key), folded_set.contains(key)));
    }
}

fn put_step(map: &mut AsciiMap<usize>, step: Step, key: AsciiStr, answer: &mut Answer) {
    match step.kind {
        0 => answer.put_result(map.insert(key, step.at)),
        1 => answer.put(map.get(key).copied()),
        2 => answer.put(map.remove(key)),
        3 => {
            if let Some(value) = map.get_mut(key) {
                *value = value.wrapping_add(step.at);
            }
            answer.put(map.get(key).copied());
        }
        4 => {
            for (key, value) in map.iter() {
                answer.put((key, *value));
            }
            for value in map.values() {
                answer.put(*value);
            }
        }
        6 => map.clear(),
        _ => answer.put(map.get(key).is_some()),
    }
    answer.put((map.len(), map.is_empty()));
}

fn put_folded_step(map: &mut FoldedMap<usize>, step: Step, key: AsciiStr, answer: &mut Answer) {
    match step.kind {
        0 => answer.put_result(map.insert(key, step.at)),
        1 => answer.put(map.get(key).copied()),
        2 => answer.put(map.remove(key)),
        3 => match map.get_or_insert(key, step.at) {
            Ok(value) => {
                *value = value.wrapping_add(step.at);
                answer.put(*value);
            }
            Err(error) => answer.put(error),
        },
        4 => {
            for (key, value) in map.iter() {
                answer.put((key, *value));
            }
            for key in map.keys() {
                answer.put(key);
            }
        }
        _ => answer.put(map.get(key).is_some()),
    }
    answer.put((map.len(), map.is_empty()));
}

/// What std's maps with folded texts as keys have at a text after the numbers of steps were inserted at their texts: a hashed
/// map, a sorted one, and how many keys each has; first with borrowed keys, and then with keys that own their text. And the
/// text of a key of either kind.
pub fn ask_std_maps(
    alloc: Global,
    source: AsciiStr,
    texts: AsciiStr,
    steps: &[Step],
    answer: &mut Answer,
) {
    answer.put_result(borrowed_keys(alloc, source, texts, steps));
    answer.put_result(owned_keys(alloc, source, texts, steps));
}

/// What a hashed and a sorted map have at a key, and how many keys each has.
type Found = ((Option<usize>, Option<usize>), (usize, usize));

fn borrowed_keys<'a>(
    alloc: Global,
    key: AsciiStr<'a>,
    texts: AsciiStr<'a>,
    steps: &[Step],
) -> Made<(Found, AsciiStr<'a>)> {
    let mut pairs = Vec::new(alloc);
    for step in steps {
        let text = step.text(texts);
        pairs.push((FoldedStr::new(text), FoldedStr::new(text), step.at))?;
    }
    let key = FoldedStr::new(key);
    Ok((found(alloc, &key, pairs)?, key.into_inner()))
}

fn owned_keys<'a>(
    alloc: Global,
    key: AsciiStr<'a>,
    texts: AsciiStr<'a>,
    steps: &[Step],
) -> Made<(Found, bool, FoldedString)> {
    let owned = owned_key(alloc, key)?;
    let found = found(alloc, &owned, owned_pairs(alloc, texts, steps)?)?;
    let is_same = owned.as_folded() == FoldedStr::new(key);
    Ok((found, is_same, owned))
}

/// The text of each step twice, each with its own memory, and the number of the step.
fn owned_pairs(
    alloc: Global,
    texts: AsciiStr,
    steps: &[Step],
) -> Made<Vec<(FoldedString, FoldedString, usize)>> {
    let mut pairs = Vec::new(alloc);
    for step in steps {
        let key = owned_key(alloc, step.text(texts))?;
        pairs.push((key, owned_key(alloc, step.text(texts))?, step.at))?;
    }
    Ok(pairs)
}

/// What two maps have at a key: a hashed one with the first key of each pair, and a sorted one with the second.
fn found<K: Hash + Ord + Drop>(alloc: Global, key: &K, pairs: Vec<(K, K, usize)>) -> Made<Found> {
    let (mut hashed, mut sorted) = (HashMap::new(alloc), BTreeMap::new(alloc));
    for (first, second, number) in pairs {
        hashed.insert(first, number)?;
        sorted.insert(second, number)?;
    }
    let found = (hashed.get(key).copied(), sorted.get(key).copied());
    Ok((found, (hashed.len(), sorted.len())))
}

/// The text of a key that owns it, borrowed and owned.
impl Put for FoldedString {
    fn put(self, answer: &mut Answer) {
        answer.put(self.as_folded().into_inner());
        answer.put(self.into_inner());
    }
}

fn owned_key(alloc: Global, key: AsciiStr) -> Made<FoldedString> {
    FoldedStr::new(key).to_folded_string(alloc)
}
