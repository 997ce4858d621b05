// Wheels.
ghost use Rattle.std.specs.Prelude.{◌+◌, ◌^◌, ◌<◌, ◌≤◌};

use crate::Table;

mod folding;

// The numbers of a wheel as they are offered. They may make no wheel.
#[derive(Clone, Copy)]
pub struct WheelNumbers {
    pub bound: u32,
    pub period: u32,
    pub pattern: u64,
}

// Counts below the bound are classes of their own; from the bound on, counts a period apart share a
// class. Bit c of the pattern is what the wheel says to the counts of class c.
#[derive(Clone, Copy)]
pub struct Wheel {
    bound: u8,
    period: u8,
    pattern: u64,
    ghost turns: { 1 ≤ period },
    ghost few: { bound + period ≤ 64 },
    ghost inside: { pattern < 2 ^ (bound + period) },
}

// Eight wheels, one for each scale.
pub type WheelSet = Table<Wheel>;
