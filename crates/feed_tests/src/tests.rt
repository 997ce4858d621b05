// What the tests of both formats share.
mod packed;
mod text;

use feed::{Ending, Feed, Next};
use line::Fault;
use std::process::Abort;

// The feed delivers so many lines, up to a place, and then ends so, as often as it is asked.
fn feeds<F: Feed>(rt: &impl Abort, feed: &mut F, lines: u32, place: u64, ending: Ending) {
    for _ in 0..lines {
        assert_ne!(rt; feed.next(), Next::Ended(ending));
    }
    assert_eq!(rt; feed.next(), Next::Ended(ending));
    assert_eq!(rt; feed.next(), Next::Ended(ending));
    assert_eq!(rt; feed.place(), place);
}

// The tests of sheets have one too: no crate of tests stands on another.
fn fault(layer: u8, number: u8, place: u64) -> Ending {
    Ending::Fault(Fault {
        layer,
        number,
        place,
    })
}
