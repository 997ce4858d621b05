// The packed feed.
ghost use Rattle.std.specs.Prelude.{◌≡◌, ℕ, ◌<◌, ◌≤◌, List, length, MatchOption};
ghost use Rattle.std.specs.List.{flat_map, AllByRecursion};
ghost use Rattle.line.specs.declared.Line.{Line};
ghost use Rattle.feed.specs.Packed as packed;
ghost use Rattle.feed.specs.Spelled as spelled;
ghost use Rattle.feed.specs.Spelled.{OneReading, PackedReads, Words};

use crate::bytes::ByteFeed;
use crate::format::{Format, fault};
use crate::{Cause, Ending, FeedKind, Next};
use line::Line;

// The packed format: a line is its time and its marks, four bytes each, the higher byte first.
pub struct Packed;

// The lines that a packed log spells, from the cursor on. It borrows the log.
pub type PackedFeed<'a> = ByteFeed<'a, Packed>;

// Each format has a constructor of its own: one for both would need a law of Format that says what
// the bytes spell, and a trait's law can't cite the lemmas in proofs/ that show it.
impl<'a> PackedFeed<'a> {
    // A feed of the lines that the bytes spell. They spell them in one way only, and lines that
    // were spelled out come back.
    pub fn new(bytes: &'a [u8]) -> PackedFeed<'a>
        ensures start { packed.passed result ≡ 0 }
        ensures reads { (rest : List ℕ) × PackedReads bytes.now (packed.lines result) (packed.lengths result) rest (packed.ending result) }
        ensures once { OneReading (PackedReads bytes.now) }
        ensures back { (ls : List Line) → AllByRecursion Words ls → flat_map spelled.packed ls ≡ bytes.now → (packed.lines result ≡ ls) × (packed.ending result ≡ Ending.Clean) }
    {
        ByteFeed::over(bytes)
    }
}

// The line that bytes begin with, where there are eight of them.
fn first_line(bytes: &[u8]) -> Option<Line>
    ensures { MatchOption result (length bytes.now < 8) (λ line. (8 ≤ length bytes.now) × (line ≡ packed.line_at bytes.now 0)) }
{
    let (time, rest) = bytes.split_first_chunk()?;
    let (marks, _) = rest.split_first_chunk()?;
    Some(Line {
        time: u32::from_be_bytes(*time),
        marks: u32::from_be_bytes(*marks),
    })
}

impl FeedKind for Packed {
    const LAYER: u8 = 3;

    ghost LAYER = { 3 };

    ghost lawful = { packed.layer };
}

impl Format for Packed {
    ghost lines = { packed.lines_at };

    ghost long = { packed.long };

    ghost ending = { packed.end_at };

    ghost faults = { packed.faults };

    fn read_at(bytes: &[u8], start: usize) -> (Next, usize) {
        let left = &bytes[start..];
        match first_line(left) {
            Some(line) => (Next::Line(line), start + 8),
            None if left.is_empty() => (Next::Ended(Ending::Clean), start),
            None => (fault(Packed::LAYER, Cause::Torn, start), start),
        }
    }
}
