// The machine that reads one line of a text log: its state, matched with the next byte.
ghost use Rattle.std.specs.Prelude.{◌≡◌, ◌+◌, ◌-◌, ◌*◌, ◌^◌, ◌<◌, ◌&&◌, if◌then◌else◌, Some, None, nat_lt};
ghost use Rattle.feed.specs.Machine.{is_digit, is_letter, step, cause};

use crate::Cause;
use line::Line;

// What of a line has been read.
#[derive(Clone, Copy)]
pub enum State {
    Start,
    Time { time: u32 },
    Space { time: u32 },
    Marks { time: u32, marks: u32 },
    Hyphen { time: u32 },
}

// Where a byte leads. Three ways and no Option; and no Result, since what is wrong is told by the
// state, whatever the byte.
#[derive(Clone, Copy)]
pub enum Step {
    On(State),
    Line(Line),
    Wrong,
}

// The value of a decimal digit. The pattern and the value behind it read as those of a letter do,
// which to_digit would not.
fn digit(b: u8) -> Option<u32>
    ensures { result ≡ (if is_digit b then Some (b - 48) else None) }
{
    match b {
        b'0'..=b'9' => Some(u32::from(b - b'0')),
        _ => None,
    }
}

// The bit of the mark that a letter stands for.
fn letter(b: u8) -> Option<u32>
    ensures { result ≡ (if is_letter b then Some (2 ^ (b - 97)) else None) }
{
    match b {
        b'a'..=b'z' => Some(1 << (b - b'a')),
        _ => None,
    }
}

// A further digit: none follows a leading zero, and the time stays within 32 bits.
fn longer(time: u32, d: u32) -> Option<u32>
    requires { d < 10 }
    ensures { result ≡ (if nat_lt 0 time && nat_lt (time * 10 + d) (2 ^ 32) then Some (time * 10 + d) else None) }
{
    if time == 0 {
        return None;
    }
    time.checked_mul(10)?.checked_add(d)
}

impl State {
    pub fn read(self, b: u8) -> Step
        ensures { result ≡ step self b }
    {
        match self {
            State::Start => match digit(b) {
                Some(time) => Step::On(State::Time { time }),
                None => Step::Wrong,
            },
            State::Time { time } => read_time(time, b),
            State::Space { time } => match (b, letter(b)) {
                (b'-', _) => Step::On(State::Hyphen { time }),
                (_, Some(marks)) => Step::On(State::Marks { time, marks }),
                (_, None) => Step::Wrong,
            },
            State::Marks { time, marks } => read_marks(time, marks, b),
            State::Hyphen { time } => match b {
                b'\n' => Step::Line(Line { time, marks: 0 }),
                _ => Step::Wrong,
            },
        }
    }

    // What is wrong where a byte leads nowhere.
    pub fn cause(self) -> Cause
        ensures { result ≡ cause self }
    {
        match self {
            State::Start | State::Time { .. } => Cause::Time,
            State::Space { .. } | State::Marks { .. } | State::Hyphen { .. } => Cause::Marks,
        }
    }
}

fn read_time(time: u32, b: u8) -> Step
    ensures { result ≡ step (State.Time time) b }
{
    if b == b' ' {
        return Step::On(State::Space { time });
    }
    match digit(b).and_then(|d| longer(time, d)) {
        Some(time) => Step::On(State::Time { time }),
        None => Step::Wrong,
    }
}

// A letter is taken only above the marks that are there.
fn read_marks(time: u32, marks: u32, b: u8) -> Step
    ensures { result ≡ step (State.Marks time marks) b }
{
    if b == b'\n' {
        return Step::Line(Line { time, marks });
    }
    match letter(b) {
        Some(bit) if marks < bit => Step::On(State::Marks {
            time,
            marks: marks + bit,
        }),
        _ => Step::Wrong,
    }
}
