use crate::words::{PlacedWord, placed_words};
use std::alloc::{AllocError, Global};

/// A label of a text, and the number of its line, from 1.
#[derive(Clone, Copy, Debug)]
pub(crate) struct NamedLabel<'a> {
    pub name: &'a [u8],
    pub line: usize,
}

/// Whether a word can be the name of a label: 1 to 14 lower-case letters and digits.
pub(crate) fn is_label_name(word: &[u8]) -> bool {
    1 <= word.len()
        && word.len() <= 14
        && word
            .iter()
            .all(|byte| byte.is_ascii_lowercase() || byte.is_ascii_digit())
}

// The name that the words of a line make a label.
fn label_in<'a>(words: &[PlacedWord<'a>]) -> Option<&'a [u8]> {
    let [word, name] = words else {
        return None;
    };
    if word.text == b"label".as_slice() && is_label_name(name.text) {
        Some(name.text)
    } else {
        None
    }
}

/// The labels of a text with these lines, in order, those of one name as well.
pub(crate) fn labels_of<'a>(
    alloc: Global,
    texts: &[&'a [u8]],
) -> Result<Vec<NamedLabel<'a>>, AllocError> {
    let mut labels = Vec::new(alloc);
    for (i, text) in texts.iter().enumerate() {
        let words = placed_words(alloc, *text)?;
        if let Some(name) = label_in(&words) {
            labels.push(NamedLabel { name, line: i + 1 })?;
        }
    }
    Ok(labels)
}

/// The line of the first label of this name, if there is one.
pub(crate) fn line_of_label(labels: &[NamedLabel], name: &[u8]) -> Option<usize> {
    for label in labels {
        if label.name == name {
            return Some(label.line);
        }
    }
    None
}
