// The feed over a slice of bytes, in any format.
ghost use Rattle.std.specs.Prelude.{◌≤◌, length};

use crate::format::Format;
use crate::{Feed, Next};
use std::marker::PhantomData;

// The lines that a log in the format F spells, from the cursor on. It borrows the log, and keeps
// all of it beside the cursor, since a place counts from the log's start.
#[derive(Drop)]
pub struct ByteFeed<'a, F> {
    bytes: &'a [u8],
    at: usize,
    format: PhantomData<F>,
    ghost inside: { at ≤ length bytes.now },
}

impl<'a, F> ByteFeed<'a, F> {
    ghost use Rattle.std.specs.Prelude.{◌≡◌};

    // The feed of a whole log.
    pub(crate) fn over(bytes: &'a [u8]) -> ByteFeed<'a, F>
        ensures bytes { result.bytes.now ≡ bytes.now }
        ensures start { result.at ≡ 0 }
    {
        ByteFeed {
            bytes,
            at: 0,
            format: PhantomData,
        }
    }
}

impl<'a, F: Format> Feed for ByteFeed<'a, F> {
    ghost use Rattle.feed.specs.Bytes as over;

    type Kind = F;

    ghost passed = { over.passed };

    ghost lines = { over.lines F.lines };

    ghost lengths = { over.lengths F.lines F.long };

    ghost ending = { over.ending F.ending };

    ghost laws = { λ level layer. over.laws F.lines F.long F.ending layer F.faults };

    fn next(&mut self) -> Next {
        let (answer, at) = F::read_at(self.bytes, self.at);
        self.at = at;
        answer
    }

    fn place(&self) -> u64 {
        self.at as u64 // no From; TryFrom would have a case that never comes
    }
}
