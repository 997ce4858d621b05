// Packed logs.
use super::{fault, feeds};
use feed::{Ending, Feed, FeedKind, Next, PackedFeed, TextFeed};
use line::Line;

// Two lines and five bytes more. The second line's marks are all set, unknown ones too.
const LOG: [u8; 21] = [
    0, 0, 0, 4, 0, 0, 0x80, 2, 0x12, 0x34, 0x56, 0x78, 255, 255, 255, 255, 1, 2, 3, 4, 5,
];

#[test]
fn lines(rt: HostRuntime) {
    let mut feed = PackedFeed::new(&LOG);
    assert_eq!(rt;
        feed.next(),
        Next::Line(Line {
            time: 4,
            marks: 0x8002,
        })
    );
    assert_eq!(rt; feed.place(), 8);
    assert_eq!(rt;
        feed.next(),
        Next::Line(Line {
            time: 0x1234_5678,
            marks: 0xffff_ffff,
        })
    );
    assert_eq!(rt; feed.place(), 16);
}

#[test]
fn endings(rt: HostRuntime) {
    feeds(&rt, &mut PackedFeed::new(b""), 0, 0, Ending::Clean);
    feeds(&rt, &mut PackedFeed::new(&LOG[0..1]), 0, 0, fault(3, 51, 0));
    feeds(&rt, &mut PackedFeed::new(&LOG[0..7]), 0, 0, fault(3, 51, 0));
    feeds(&rt, &mut PackedFeed::new(&LOG[0..8]), 1, 8, Ending::Clean);
    feeds(
        &rt,
        &mut PackedFeed::new(&LOG[0..12]),
        1,
        8,
        fault(3, 51, 8),
    );
    feeds(&rt, &mut PackedFeed::new(&LOG[0..16]), 2, 16, Ending::Clean);
    feeds(&rt, &mut PackedFeed::new(&LOG), 2, 16, fault(3, 51, 16));
}

#[test]
fn layers(rt: HostRuntime) {
    assert_eq!(rt; <<PackedFeed<'_> as Feed>::Kind as FeedKind>::LAYER, 3);
    assert_eq!(rt; <<TextFeed<'_> as Feed>::Kind as FeedKind>::LAYER, 4);
}
