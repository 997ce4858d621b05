// What the tests of all summary kinds share: lists of lines, and three ways to put values together.
mod counts;
mod queues;
mod sinces;

use window::{Summary, Truths};

// A line as a letter: a, b, * for both, . for neither.
fn truths(letter: u8) -> Truths {
    Truths {
        a: letter == b'a' || letter == b'*',
        b: letter == b'b' || letter == b'*',
    }
}

// The value of lines that join one by one at the end.
fn from_the_oldest<K: Summary>(kind: &K, lines: &[u8]) -> K::Value {
    let mut value = kind.empty();
    for letter in lines {
        value = kind.join(value, kind.one(truths(*letter)));
    }
    value
}

// The value of lines that join one by one in front.
fn from_the_newest<K: Summary>(kind: &K, lines: &[u8]) -> K::Value {
    let mut value = kind.empty();
    for letter in lines.iter().rev() {
        value = kind.join(kind.one(truths(*letter)), value);
    }
    value
}

// The value of the first half and that of the second, joined.
fn by_halves<K: Summary>(kind: &K, lines: &[u8]) -> K::Value {
    let (older, newer) = lines.split_at(lines.len() / 2);
    kind.join(from_the_oldest(kind, older), from_the_newest(kind, newer))
}
