// The since pair.
use super::{by_halves, from_the_newest, from_the_oldest};
use std::test::Fail;
use window::{Since, SincePair};

// Lines; whether each has a; whether some has b with a at every line after it.
const LISTS: [(&[u8], bool, bool); 16] = [
    (b"", true, false),
    (b".", false, false),
    (b"a", true, false),
    (b"b", false, true),
    (b"*", true, true),
    (b"aaa", true, false),
    (b"ab", false, true),
    (b"ba", false, true),
    (b"b.", false, false),
    (b"baaa", false, true),
    (b"b.a", false, false),
    (b"b.b", false, true),
    (b"bb.aa", false, false),
    (b"*a*a", true, true),
    (b"*a.a", false, false),
    (b"..aba", false, true),
];

#[test]
fn lists(rt: HostRuntime) -> Result<(), Fail> {
    for (lines, unbroken, held) in LISTS {
        let value = Since { unbroken, held };
        assert_eq!(rt; from_the_oldest(&SincePair, lines), value);
        assert_eq!(rt; from_the_newest(&SincePair, lines), value);
        assert_eq!(rt; by_halves(&SincePair, lines), value);
    }
    Ok(())
}
