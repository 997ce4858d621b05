// What a feed has to know of the format of its bytes.
ghost use Rattle.std.specs.Prelude.{◌≡◌, ℕ, ◌≤◌, List, length};
ghost use Rattle.line.specs.declared.Line.{Line};
ghost use Rattle.feed.specs.declared.answers.Ending.{Ending};
ghost use Rattle.feed.specs.Codes as codes;
ghost use Rattle.feed.specs.Meaning.{At, FeedEnding};

use crate::{Cause, Ending, FeedKind, Next};
use line::Fault;

// A format says which lines bytes spell from a place on, how they end, and how many bytes a line
// takes.
pub trait Format: FeedKind {
    ghost lines: { List ℕ → ℕ → List Line };

    ghost long: { Line → ℕ };

    ghost ending: { List ℕ → ℕ → Ending };

    // What each format owes: lawful faults.
    ghost faults: { (bytes : List ℕ) (at : ℕ) → FeedEnding (ending bytes at) };

    // What stands at a place of the bytes, and the place behind it: that of the next line, or the
    // same where there is no line.
    fn read_at(bytes: &[u8], start: usize) -> (Next, usize)
        requires { start ≤ length bytes.now }
        ensures { At (length bytes.now) (lines bytes.now) long (ending bytes.now) start result.0 result.1 };
}

// The ending in a fault, at a place.
pub(crate) fn fault(layer: u8, cause: Cause, place: usize) -> Next
    ensures { result ≡ Next.Ended (Ending.Fault (codes.fault layer cause place)) }
{
    Next::Ended(Ending::Fault(Fault {
        layer,
        number: u8::from(cause),
        // no From for usize to u64; TryFrom would have a case that never comes
        place: place as u64,
    }))
}
