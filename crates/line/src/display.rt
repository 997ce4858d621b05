// How a line and a fault are printed.
ghost use Rattle.std.specs.Prelude.{◌≡◌, Some};
ghost use Rattle.std.specs.Fmt.{WritesOnOk};
ghost use Rattle.line.specs.Spelling.{letters_below, or_hyphen, written};
ghost use Rattle.line.specs.Told.{told};

use crate::{Fault, Line};
use std::fmt;

// A line as a text log spells it, without the line feed that ends it there.
impl fmt::Display for Line {
    ghost output = { λ l. Some (written l) };

    fn fmt<W: fmt::Write>(&self, f: &mut fmt::Formatter<W>) -> fmt::Result {
        let time = self.time;
        write!(f, "{time} ")?;
        write_marks(self.marks, f)
    }
}

// The letters of the known marks that are set, or a hyphen where none is.
fn write_marks<W: fmt::Write>(marks: u32, f: &mut fmt::Formatter<W>) -> fmt::Result
    ensures { WritesOnOk W.write_str_gives f.old result (or_hyphen (letters_below 26 marks)) f.new }
{
    if marks % (1 << Line::KNOWN) == 0 {
        return f.write_char('-');
    }
    // i is the number of a mark, and nothing is indexed.
    for i in 0..26u8 {
        if (marks >> i) % 2 == 1 {
            f.write_char(char::from(b'a' + i))?;
        }
    }
    Ok(())
}

// The layer, the number and the place, as a program tells them.
impl fmt::Display for Fault {
    ghost output = { λ f. Some (told f) };

    fn fmt<W: fmt::Write>(&self, f: &mut fmt::Formatter<W>) -> fmt::Result {
        let Fault {
            layer,
            number,
            place,
        } = *self;
        write!(f, "{layer} {number} {place}")
    }
}
