// Judges a text log from standard input at every place, by the rules of the bench sheet.
#![tactic(auto)]

ghost use Rattle.std.specs.Prelude.{◌≡◌, ◌<◌, ◌≤◌, [], ◌++◌, length, vec_len, vec_capacity, MatchOption};
ghost use Rattle.sheet.specs.Contents as contents;
ghost use Rattle.judged.specs.Held as held;

use bench::Bench;
use feed::{Ending, Feed, Next, TextFeed};
use judge::{LONGEST, Refusal, judge};
use line::{Fault, Line};
use sheet::Sheet;
use std::io;
use std::io::Read;

// The longest log that is read, in bytes. The other program reads its log the same way; a crate for
// these lines would be no shorter.
const LIMIT: usize = 32_768;

// The layer that tells of the order of lines.
const ORDER: u8 = 5;

// Takes lines from the feed until it ends, and tells its ending; or one line more than are judged.
// The caller's vector has the room, so that nothing here can want memory.
fn take_lines<F: Feed>(feed: &mut F, log: &mut Vec<Line>) -> Option<Ending>
    requires room { 1025 ≤ vec_capacity log.old }
    requires few { vec_len log.old ≤ 1025 }
    ensures lines { log.new.items ++ F.lines feed.new ≡ log.old.items ++ F.lines feed.old }
    ensures ending { MatchOption result (vec_len log.new ≡ 1025) (λ e. (e ≡ F.ending feed.old) × (F.lines feed.new ≡ [])) }
{
    while log.len() <= LONGEST {
        match feed.next() {
            Next::Line(line) => log.push_reserved(line),
            Next::Ended(ending) => return Some(ending),
        }
    }
    None
}

// How many lines come before the first whose time is before that of the line before it.
#[tactic(auto, using(crate::proofs::Walks::from_start))]
fn risen(log: &[Line]) -> usize
    ensures value { result ≡ held.risen log.now }
    ensures bound { result ≤ length log.now }
{
    // Tried: array_windows with position. The check leaves open that the first pair to fall is the
    // definition's, and no answer was written for it.
    let mut last = 0;
    for (i, line) in log.iter().enumerate() {
        if line.time < last {
            return i;
        }
        last = line.time;
    }
    log.len()
}

// Whether nothing before the log can change what the rule says at the place. Places are numbered
// from 1, here and below, so the line at a place has the index before it.
fn settled(sheet: &Sheet, log: &[Line], rule: usize, place: usize) -> bool
    requires from { 1 ≤ place }
    requires to { place ≤ length log.now }
    ensures { result ≡ held.settled (contents.rule_reach (contents.of sheet.now) rule) log.now place }
{
    let Some(reach) = sheet.rule_reach(rule) else {
        return false;
    };
    log[place - 1].time.saturating_sub(log[0].time) > reach
}

// Prints the time of a place, the verdict digits of the rules, and the settled digits.
fn print_place(rt: &impl Print, bench: &Bench, log: &[Line], place: usize) -> io::Result<()>
    requires from { 1 ≤ place }
    requires to { place ≤ length log.now }
{
    let time = log[place - 1].time;
    print!(rt; "{time} ")?;
    let rules = bench.sheet.rules();
    for rule in rules {
        let verdict = judge(&bench.sheet, &bench.scales, log, usize::from(*rule), place);
        let digit = u8::from(verdict == Ok(true));
        print!(rt; "{digit}")?;
    }
    print!(rt; " ")?;
    // A rule is asked for by its number, and nothing is indexed.
    for k in 0..rules.len() {
        let digit = u8::from(settled(&bench.sheet, log, k, place));
        print!(rt; "{digit}")?;
    }
    println!(rt; "")
}

fn main(rt: HostRuntime) -> io::Result<()> {
    let mut text = Vec::new(rt.alloc());
    // (usize to u64 has no From, and TryFrom a case that never comes, here and below)
    rt.stdin().take(LIMIT as u64 + 1).read_to_end(&mut text)?;
    if text.len() > LIMIT {
        return println!(rt; "long");
    }
    let bench = bench::set_up(rt.alloc())?;
    let mut lines = Vec::with_capacity(rt.alloc(), LONGEST + 1)?;
    let mut feed = TextFeed::new(text.as_slice());
    let ending = take_lines(&mut feed, &mut lines);
    let count = risen(lines.as_slice());
    if count > LONGEST {
        let number = u8::from(Refusal::Long);
        return println!(rt; "refused {number}");
    }
    let log = &lines.as_slice()[..count];
    // The judge is asked by place, from 1.
    for place in 1..=count {
        print_place(&rt, &bench, log, place)?;
    }
    if count < lines.len() {
        let fault = Fault {
            layer: ORDER,
            number: u8::from(Refusal::Backward),
            place: count as u64,
        };
        return println!(rt; "stop {fault}");
    }
    match ending {
        Some(Ending::Fault(fault)) => println!(rt; "stop {fault}"),
        _ => println!(rt; "end {count}"),
    }
}
