// Windows: which gaps in seconds between two lines count.
ghost use Rattle.std.specs.Prelude.{◌≡◌};
ghost use Rattle.sheet.specs.Windows.{window_of, inside, window_cells, raw_low, raw_high};

// A closed window holds the gaps from `low` up to `high`, without `high`; an open one those from
// `low` on.
#[derive(Clone, Copy, PartialEq, Eq, Debug)]
pub enum Window {
    Closed { low: u16, high: u16 },
    Open { low: u16 },
}

impl Window {
    // The `high` of an open window in raw fields.
    pub const NO_END: u16 = 65_535;

    // The most that `high` of a closed window and `low` of an open one may be.
    pub const LONGEST: u16 = 4_000;

    // The window that two raw fields are, if they are one.
    pub fn new(low: u16, high: u16) -> Option<Window>
        ensures { result ≡ window_of low high }
    {
        if high >= 1 && high <= Self::LONGEST && low < high {
            Some(Window::Closed { low, high })
        } else if high == Self::NO_END && low <= Self::LONGEST {
            Some(Window::Open { low })
        } else {
            None
        }
    }

    // Whether a gap of so many seconds lies in the window.
    pub fn contains(self, gap: u32) -> bool
        ensures { result ≡ inside self gap }
    {
        match self {
            Window::Closed { low, high } => u32::from(low) <= gap && gap < u32::from(high),
            Window::Open { low } => u32::from(low) <= gap,
        }
    }

    // How many cells a summary over the window costs.
    pub fn cells(self) -> u32
        ensures { result ≡ window_cells self }
    {
        match self {
            Window::Closed { high, .. } => u32::from(high),
            Window::Open { low } => u32::from(low) + 1,
        }
    }

    pub fn low(self) -> u16
        ensures { result ≡ raw_low self }
    {
        match self {
            Window::Closed { low, .. } | Window::Open { low } => low,
        }
    }

    // `high` as raw fields have it.
    pub fn high(self) -> u16
        ensures { result ≡ raw_high self }
    {
        match self {
            Window::Closed { high, .. } => high,
            Window::Open { .. } => Self::NO_END,
        }
    }
}
