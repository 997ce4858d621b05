// Reads a text log from standard input and prints its lines, then how it ended.
#![tactic(auto)]

ghost use Rattle.std.specs.Prelude.{◌≡◌, ◌^◌, ◌<◌, [], length, IfOk, OnOk};

use feed::{Ending, Feed, Next, TextFeed};
use std::io;
use std::io::Read;

// The longest log that is read, in bytes. The other program reads its log the same way; a crate for
// these lines would be no shorter.
const LIMIT: usize = 32_768;

// Prints every line to come, each as the log spells it, and answers how many they were and how the
// feed ended.
fn print_lines<F: Feed>(rt: &impl Print, feed: &mut F) -> io::Result<(u64, Ending)>
    ensures count { IfOk result (λ p. length (F.lines feed.old) < 2 ^ 64 → p.0 ≡ length (F.lines feed.old)) }
    ensures ending { IfOk result (λ p. p.1 ≡ F.ending feed.old) }
    ensures empty { OnOk result (F.lines feed.new ≡ []) }
{
    // A feed is no iterator, so the lines are counted here.
    let mut count = 0u64;
    loop {
        match feed.next() {
            Next::Line(line) => {
                println!(rt; "{line}")?;
                count = count.saturating_add(1);
            }
            Next::Ended(ending) => return Ok((count, ending)),
        }
    }
}

fn main(rt: HostRuntime) -> io::Result<()> {
    let mut log = Vec::new(rt.alloc());
    // (usize to u64 has no From, and TryFrom a case that never comes)
    rt.stdin().take(LIMIT as u64 + 1).read_to_end(&mut log)?;
    if log.len() > LIMIT {
        return println!(rt; "long");
    }
    let mut feed = TextFeed::new(log.as_slice());
    match print_lines(&rt, &mut feed)? {
        (count, Ending::Clean) => println!(rt; "end {count}"),
        (_, Ending::Fault(fault)) => println!(rt; "stop {fault}"),
    }
}
