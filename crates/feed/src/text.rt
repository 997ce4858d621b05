// The text feed.
ghost use Rattle.std.specs.Prelude.{◌≡◌, ℕ, ◌≤◌, List, length};
ghost use Rattle.std.specs.List.{flat_map, AllByRecursion};
ghost use Rattle.line.specs.declared.Line.{Line};
ghost use Rattle.line.specs.Spelling as spelling;
ghost use Rattle.line.specs.Spelling.{Lawful};
ghost use Rattle.feed.specs.Spelled.{OneReading, TextReads};
ghost use Rattle.feed.specs.Text as text;
ghost use Rattle.feed.specs.TextLaws as text_laws;

mod machine;

use crate::bytes::ByteFeed;
use crate::format::{Format, fault};
use crate::{Cause, Ending, FeedKind, Next};
use machine::{State, Step};

// The text format: a line is its time in decimal, a space, its marks and a line feed.
pub struct Text;

// The lines that a text log spells, from the cursor on. It borrows the log.
pub type TextFeed<'a> = ByteFeed<'a, Text>;

// Each format has a constructor of its own: one for both would need a law of Format that says what
// the bytes spell, and a trait's law can't cite the lemmas in proofs/ that show it.
impl<'a> TextFeed<'a> {
    // A feed of the lines that the bytes spell. They spell them in one way only, and lawful lines
    // that were spelled out come back.
    pub fn new(bytes: &'a [u8]) -> TextFeed<'a>
        ensures start { text.passed result ≡ 0 }
        ensures reads { (rest : List ℕ) × TextReads bytes.now (text.lines result) (text.lengths result) rest (text.ending result) }
        ensures once { OneReading (TextReads bytes.now) }
        ensures back { (ls : List Line) → AllByRecursion Lawful ls → flat_map spelling.text ls ≡ bytes.now → (text.lines result ≡ ls) × (text.ending result ≡ Ending.Clean) }
    {
        ByteFeed::over(bytes)
    }
}

impl FeedKind for Text {
    const LAYER: u8 = 4;

    ghost LAYER = { 4 };

    ghost lawful = { text_laws.layer };
}

impl Format for Text {
    ghost lines = { text.lines_at };

    ghost long = { text.long };

    ghost ending = { text.end_at };

    ghost faults = { text_laws.faults };

    fn read_at(bytes: &[u8], start: usize) -> (Next, usize) {
        let mut state = State::Start;
        for (i, byte) in bytes[start..].iter().enumerate() {
            match state.read(*byte) {
                Step::On(on) => state = on,
                Step::Line(line) => return (Next::Line(line), start + i + 1),
                Step::Wrong => return (fault(Text::LAYER, state.cause(), start + i), start),
            }
        }
        match state {
            State::Start => (Next::Ended(Ending::Clean), start),
            _ => (fault(Text::LAYER, Cause::Cut, bytes.len()), start),
        }
    }
}
