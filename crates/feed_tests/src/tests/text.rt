// Text logs.
use super::{fault, feeds};
use feed::{Ending, Feed, Next, TextFeed};
use line::Line;
use std::process::Abort;
use std::test::Fail;

fn clean(rt: &impl Abort, text: &[u8], lines: u32) {
    feeds(
        rt,
        &mut TextFeed::new(text),
        lines,
        text.len() as u64,
        Ending::Clean,
    );
}

fn stops(rt: &impl Abort, text: &[u8], lines: u32, passed: u64, number: u8, place: u64) {
    feeds(
        rt,
        &mut TextFeed::new(text),
        lines,
        passed,
        fault(4, number, place),
    );
}

fn first(rt: &impl Abort, text: &[u8], time: u32, marks: u32) {
    assert_eq!(rt;
        TextFeed::new(text).next(),
        Next::Line(Line { time, marks })
    );
}

#[test]
fn lines(rt: HostRuntime) {
    clean(&rt, b"", 0);
    clean(&rt, b"0 -\n", 1);
    clean(&rt, b"5 b\n5 b\n4 b\n", 3);
    first(&rt, b"0 -\n", 0, 0);
    first(&rt, b"4 bp\n", 4, 0x8002);
    first(&rt, b"4294967295 az\n", 4_294_967_295, 0x200_0001);
    first(&rt, b"10 abcdefghijklmnopqrstuvwxyz\n", 10, 0x3ff_ffff);
}

#[test]
fn times(rt: HostRuntime) {
    stops(&rt, b"07 b", 0, 0, 52, 1);
    stops(&rt, b"00 -\n", 0, 0, 52, 1);
    stops(&rt, b"5\n", 0, 0, 52, 1);
    stops(&rt, b" 5 b\n", 0, 0, 52, 0);
    stops(&rt, b"\n", 0, 0, 52, 0);
    stops(&rt, b"-1 b\n", 0, 0, 52, 0);
    stops(&rt, b"4294967296 -", 0, 0, 52, 9);
    stops(&rt, b"42949672950 -\n", 0, 0, 52, 10);
    stops(&rt, b"0 b\n3 b\n4x bp\n", 2, 8, 52, 9);
}

#[test]
fn marks(rt: HostRuntime) {
    stops(&rt, b"5 \n", 0, 0, 53, 2);
    stops(&rt, b"5  b\n", 0, 0, 53, 2);
    stops(&rt, b"5 ba", 0, 0, 53, 3);
    stops(&rt, b"5 bb\n", 0, 0, 53, 3);
    stops(&rt, b"5 --\n", 0, 0, 53, 3);
    stops(&rt, b"5 -a\n", 0, 0, 53, 3);
    stops(&rt, b"5 a-\n", 0, 0, 53, 3);
    stops(&rt, b"5 za\n", 0, 0, 53, 3);
    stops(&rt, b"5 A\n", 0, 0, 53, 2);
    stops(&rt, b"5 b\r\n", 0, 0, 53, 3);
    stops(&rt, b"0 b\n3 b\n4 b \n", 2, 8, 53, 11);
}

#[test]
fn cuts(rt: HostRuntime) {
    stops(&rt, b"5", 0, 0, 54, 1);
    stops(&rt, b"0 ", 0, 0, 54, 2);
    stops(&rt, b"5 b", 0, 0, 54, 3);
    stops(&rt, b"5 -", 0, 0, 54, 3);
    stops(&rt, b"4294967295", 0, 0, 54, 10);
    stops(&rt, b"0 b\n3 b\n4 bp", 2, 8, 54, 12);
}

#[test]
fn spells_a_line_as_the_log_does(rt: HostRuntime) -> Result<(), Fail> {
    let mut feed = TextFeed::new(b"4294967295 az\n");
    let Next::Line(line) = feed.next() else {
        return Err(Fail::new("a line"));
    };
    let text = format!(in rt.alloc(); "{line}")?;
    assert_eq!(rt; text.as_str(), "4294967295 az");
    Ok(())
}

#[test]
fn prints_a_fault_by_its_numbers(rt: HostRuntime) -> Result<(), Fail> {
    let Next::Ended(Ending::Fault(fault)) = TextFeed::new(b"07 b").next() else {
        return Err(Fail::new("a fault"));
    };
    let text = format!(in rt.alloc(); "{fault}")?;
    assert_eq!(rt; text.as_str(), "4 52 1");
    Ok(())
}
