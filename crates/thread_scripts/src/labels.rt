ghost use Rattle.std.specs.Prelude.{◌≡◌, ◌+◌, ◌^◌, ◌<◌, IfOk, map, option_copied, option_map};
ghost use Rattle.std.specs.List.{list_all};
ghost use Rattle.thread_scripts.specs.Labels.{is_name, is_name_byte, label_in, labels_from};
ghost use Rattle.thread_scripts.specs.Labels.{place_after, place_of};

use crate::words::SplitLine;
use std::alloc::{AllocError, Global};

/// A label and the place of its line.
#[derive(Clone, Copy)]
pub(crate) struct Label<'a> {
    pub name: &'a [u8],
    pub place: usize,
}

/// Whether all bytes are lower-case letters or digits.
fn are_name_bytes(word: &[u8]) -> bool
    ensures { result ≡ list_all is_name_byte word.now }
{
    word.iter()
        .all(|byte| byte.is_ascii_lowercase() || byte.is_ascii_digit())
}

fn is_name(word: &[u8]) -> bool
    ensures { result ≡ is_name word.now }
{
    1 <= word.len() && word.len() <= 14 && are_name_bytes(word)
}

/// The name that the words of a line make a label.
fn label_in<'a>(words: &[&'a [u8]]) -> Option<&'a [u8]>
    ensures { option_copied result ≡ label_in (map (λ w. w.now) words.now) }
{
    let [word, name] = words else {
        return None;
    };
    if *word == b"label".as_slice() && is_name(name) {
        Some(*name)
    } else {
        None
    }
}

/// How many lines that do something there are up to the end of this one.
pub(crate) fn place_after(place: usize, words: &Option<Vec<&[u8]>>) -> usize
    requires { place + 1 < 2 ^ 64 }
    ensures { result ≡ place_after place (option_map (λ v. map (λ w. w.now) v.items) words.now) }
{
    match words {
        Some(words) if words.is_empty() => place,
        _ => place + 1,
    }
}

/// The labels of these lines.
pub(crate) fn labels<'a>(
    alloc: Global,
    lines: &[SplitLine<'a>],
) -> Result<Vec<Label<'a>>, AllocError>
    ensures { IfOk result (λ labels. map (λ l. (l.name.now, l.place)) labels.items
        ≡ labels_from 0 (map (λ l. l.text.now) lines.now)) }
{
    let mut labels = Vec::new(alloc);
    let mut place = 0;
    for i in 0..lines.len() {
        let words = &lines[i].words;
        if let Some(words) = words {
            if let Some(name) = label_in(words) {
                labels.push(Label { name, place })?;
            }
        }
        place = place_after(place, words);
    }
    Ok(labels)
}

/// The place of the first label of this name.
pub(crate) fn place_of(labels: &[Label], name: &[u8]) -> Option<usize>
    ensures { result ≡ place_of name.now (map (λ l. (l.name.now, l.place)) labels.now) }
{
    for label in labels {
        if label.name == name {
            return Some(label.place);
        }
    }
    None
}
