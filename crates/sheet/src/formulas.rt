// Formulas.
ghost use Rattle.std.specs.Prelude.{◌≡◌};
ghost use Rattle.sheet.specs.Formulas.{cells_of};

use crate::windows::Window;

// A formula on a sheet. `a` and `b` are the numbers of formulas before it, as the bytes of a sheet
// have them too; two formulas may name the same one.
#[derive(Clone, Copy, PartialEq, Eq, Debug)]
pub enum Formula {
    Never,
    Mark {
        mark: u8,
    },
    Not {
        a: u8,
    },
    Or {
        a: u8,
        b: u8,
    },
    Previous {
        a: u8,
        window: Window,
    },
    Since {
        a: u8,
        b: u8,
        window: Window,
    },
    Count {
        a: u8,
        b: u8,
        scale: u8,
        window: Window,
    },
}

impl Formula {
    // How many cells the formula costs.
    pub fn cells(self) -> u32
        ensures { result ≡ cells_of self }
    {
        match self {
            Formula::Previous { .. } => 1,
            Formula::Since { window, .. } | Formula::Count { window, .. } => window.cells(),
            _ => 0,
        }
    }
}
