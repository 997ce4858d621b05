// The queue, with room for three seconds of one line each.
use super::{from_the_oldest, truths};
use std::test::Fail;
use window::{Cell, Queue, SincePair, Summary};

// What is done: a letter is a second with that line, - lets the oldest leave, ! lets all leave. And
// the lines that are left.
const STEPS: [(&[u8], &[u8]); 15] = [
    (b"", b""),
    (b"-", b""),
    (b"b", b"b"),
    (b"ba", b"ba"),
    (b"ba-", b"a"),
    (b"ba--", b""),
    (b"ba---a", b"a"),
    (b"ba.*", b"ba."),
    (b"bab-.", b"ab."),
    (b"bab-.-", b"b."),
    (b"b*a-a", b"*aa"),
    (b"bab-.-*-b", b".*b"),
    (b"bab-.-*--b", b"*b"),
    (b"ba!", b""),
    (b"ba-!b*", b"b*"),
];

#[test]
fn steps(rt: HostRuntime) -> Result<(), Fail> {
    for (steps, left) in STEPS {
        let mut queue = Queue::new(&SincePair, 3, rt.alloc())?;
        for step in steps {
            match *step {
                b'-' => {
                    queue.pop(&SincePair);
                }
                b'!' => queue.clear(&SincePair),
                letter => {
                    let cell = Cell {
                        time: u32::from(letter),
                        value: SincePair.one(truths(letter)),
                    };
                    queue.push(&SincePair, cell);
                }
            }
        }
        assert_eq!(rt; queue.value(&SincePair), from_the_oldest(&SincePair, left));
        let oldest = match left {
            [] => None,
            [letter, ..] => Some(Cell {
                time: u32::from(*letter),
                value: SincePair.one(truths(*letter)),
            }),
        };
        assert_eq!(rt; queue.oldest(), oldest);
        assert_eq!(rt; queue.pop(&SincePair), oldest);
    }
    Ok(())
}
