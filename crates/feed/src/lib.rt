// Feeds: what delivers the lines of a log, one by one, from its bytes.
#![tactic(auto)]

ghost use Rattle.std.specs.Prelude.{◌≡◌, ℕ, ◌+◌, List, drop, slice_index};
ghost use Rattle.line.specs.declared.Line.{Line};
ghost use Rattle.feed.specs.declared.answers.Ending.{Ending};
ghost use Rattle.feed.specs.Meaning.{answer, FeedLayer, Laws};

pub mod answers;
mod bytes;
mod format;
mod packed;
mod text;

pub use answers::{Cause, Ending, Next};
pub use packed::PackedFeed;
pub use text::TextFeed;

// A kind of feed. It stands beside the feed, whose type borrows, since the constant of a type that
// borrows can carry no clause yet.
pub trait FeedKind {
    // The layer that a fault of this kind of feed carries: 3 or above, and never 5.
    const LAYER: u8;

    ghost LAYER: { ℕ };

    ghost lawful: { FeedLayer LAYER };
}

// A feed means the bytes that it has passed, the lines to come with the length of each in bytes,
// and an ending.
pub trait Feed {
    type Kind: FeedKind;

    ghost passed: { Self → ℕ };

    ghost lines: { Self → List Line };

    ghost lengths: { Self → List ℕ };

    ghost ending: { Self → Ending };

    // What each feed owes: a length for each line, and lawful faults, whatever lawful layer it is
    // laid beside. With the layer of its kind it is `laws _ Self.Kind.lawful`.
    ghost laws: { (level : ℕ) → FeedLayer level → Laws level lines lengths ending };

    // The first line to come, which is passed; where there is none, the ending, and nothing
    // changes.
    fn next(&mut self) -> Next
        ensures value { result ≡ answer (lines self.old) (ending self.old) }
        ensures rest { lines self.new ≡ drop 1 (lines self.old) }
        ensures ending { ending self.new ≡ ending self.old }
        ensures passed { passed self.new ≡ passed self.old + slice_index (lengths self.old) 0 }
        ensures lengths { lengths self.new ≡ drop 1 (lengths self.old) };

    // How many bytes have been passed.
    fn place(&self) -> u64
        ensures { result ≡ passed self.now };
}
