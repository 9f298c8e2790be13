// What was read of the inputs of a command, for whoever says more of a fault in them.
use posix_terms::Bytes;
use std::alloc::Global;
use std::cell::Cell;

// Which input it is.
#[derive(Clone, Copy, Debug, PartialEq, Eq)]
pub(crate) enum Role {
    // The script of this number.
    Script(usize),
    // That of --log, or of --with.
    Log,
    OtherLog,
    Text,
}

#[derive(Drop)]
struct HeardText {
    role: Role,
    bytes: Vec<u8>,
}

// The texts, in the order in which they were opened. It keeps them only where more may be said.
#[derive(Drop)]
pub(crate) struct Heard {
    alloc: Global,
    keeps: bool,
    texts: Cell<Vec<HeardText>>,
}

impl Heard {
    pub(crate) fn new(alloc: Global, keeps: bool) -> Heard {
        Heard {
            alloc,
            keeps,
            texts: Cell::new(Vec::new(alloc)),
        }
    }

    // These bytes were read next of this input. Without memory for them it has no more of any text.
    pub(crate) fn add(&self, role: Role, bytes: &[u8]) {
        if !self.keeps {
            return;
        }
        let mut texts = self.texts.replace(Vec::new(self.alloc));
        if !added(self.alloc, &mut texts, role, bytes) {
            texts = Vec::new(self.alloc);
        }
        self.texts.set(texts);
    }

    // A copy of what was read of this input, if it was read.
    pub(crate) fn text(&self, role: Role) -> Option<Bytes> {
        let texts = self.texts.replace(Vec::new(self.alloc));
        let found = texts.iter().find(|text| text.role == role);
        let copy = found.and_then(|text| Bytes::from_slice(self.alloc, &text.bytes).ok());
        self.texts.set(texts);
        copy
    }
}

fn added(alloc: Global, texts: &mut Vec<HeardText>, role: Role, bytes: &[u8]) -> bool {
    for text in texts.iter_mut() {
        if text.role == role {
            return text.bytes.extend_from_slice(bytes).is_ok();
        }
    }
    let Ok(bytes) = Vec::from_slice(alloc, bytes) else {
        return false;
    };
    texts.push(HeardText { role, bytes }).is_ok()
}
