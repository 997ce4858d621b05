// The resetting count, on a limit and on a wheel.
use super::{by_halves, from_the_newest, from_the_oldest};
use scale::{LimitSet, Scale, ScaleSet, WheelNumbers, WheelSet};
use std::process::Abort;
use std::test::Fail;
use window::{ResettingCount, Tally};

// Lines; whether some has a; how many have b, after the last that has a.
const LISTS: [(&[u8], bool, u64); 18] = [
    (b"", false, 0),
    (b".", false, 0),
    (b"b", false, 1),
    (b"a", true, 0),
    (b"*", true, 0),
    (b"bb", false, 2),
    (b"ba", true, 0),
    (b"b*", true, 0),
    (b"ab", true, 1),
    (b"*b", true, 1),
    (b"b.b.b", false, 3),
    (b"bbabb", true, 2),
    (b"bb*b.b", true, 2),
    (b"bbbb", false, 4),
    (b"bbbbb", false, 5),
    (b"bbbbbb", false, 6),
    (b"babbbbbbb", true, 7),
    (b"abbbbabbbb.bbbb", true, 8),
];

// The lines have this value on the scale, however it is put together.
fn agrees<S: ScaleSet>(
    rt: &impl Abort,
    kind: &ResettingCount<S>,
    lines: &[u8],
    value: Tally,
) -> Result<(), Fail> {
    assert_eq!(rt; from_the_oldest(kind, lines), value);
    assert_eq!(rt; from_the_newest(kind, lines), value);
    assert_eq!(rt; by_halves(kind, lines), value);
    Ok(())
}

#[test]
fn lists(rt: HostRuntime) -> Result<(), Fail> {
    let mut limits = LimitSet::new();
    limits.set(3, 2)?;
    let mut wheels = WheelSet::new();
    wheels.set(
        5,
        WheelNumbers {
            bound: 2,
            period: 3,
            pattern: 0,
        },
    )?;
    let limit = ResettingCount {
        set: &limits,
        scale: 3,
    };
    let wheel = ResettingCount {
        set: &wheels,
        scale: 5,
    };
    for (lines, reset, count) in LISTS {
        let class = limits.at(3).fold(count);
        agrees(&rt, &limit, lines, Tally { reset, class })?;
        let class = wheels.at(5).fold(count);
        agrees(&rt, &wheel, lines, Tally { reset, class })?;
    }
    Ok(())
}
