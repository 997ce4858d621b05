// Truth by plain counting: over formulas of smaller number, and places further back.
ghost use Rattle.std.specs.Prelude.{◌≡◌, ◌≤◌, length};
ghost use Rattle.judge.specs.Counting.{truth, since_up_to, count_up_to};

use crate::held::Held;
use sheet::{Formula, Window};

// What since and count ask: of two formulas, at the places whose gap to a place lies in a window.
#[derive(Clone, Copy)]
struct Asked {
    a: u8,
    b: u8,
    window: Window,
    place: usize,
}

// It is a rule of the project that holds, since and count recurse on the formula's number and the
// place, with one falling number made of the two. How deep they go hangs on the place, so each asks
// for one that is no later than the log, which is short.
impl Held<'_> {
    // Whether the formula `n` holds at the place.
    #[cycle(counting)]
    #[tactic(auto, using(crate::proofs::Unrolls::unrolls))]
    pub(crate) fn holds(&self, n: usize, place: usize) -> bool
        requires within { place ≤ length self.now.log.now }
        ensures { result ≡ truth self.now n place }
    {
        match self.formula(n) {
            Formula::Never => false,
            Formula::Mark { mark } => (self.line(place).marks >> mark) % 2 == 1,
            Formula::Not { a } => !self.holds(usize::from(a), place),
            Formula::Or { a, b } => {
                self.holds(usize::from(a), place) || self.holds(usize::from(b), place)
            }
            Formula::Previous { a, window } => {
                place > 1
                    && self.is_within(window, place, place - 1)
                    && self.holds(usize::from(a), place - 1)
            }
            Formula::Since { a, b, window } => {
                let asked = Asked {
                    a,
                    b,
                    window,
                    place,
                };
                self.since(asked, place)
            }
            Formula::Count {
                a,
                b,
                scale,
                window,
            } => {
                let asked = Asked {
                    a,
                    b,
                    window,
                    place,
                };
                self.says(scale, self.count(asked, place))
            }
        }
    }

    // Whether some place up to `h` lies in the window and has b, and a holds after it up to `h`.
    #[cycle(counting)]
    #[tactic(auto, using(crate::proofs::Downs::since_steps))]
    fn since(&self, asked: Asked, h: usize) -> bool
        requires within { asked.place ≤ length self.now.log.now }
        requires back { h ≤ asked.place }
        ensures { result ≡ since_up_to self.now asked h }
    {
        if h == 0 {
            return false;
        }
        if self.is_within(asked.window, asked.place, h) && self.holds(usize::from(asked.b), h) {
            return true;
        }
        self.holds(usize::from(asked.a), h) && self.since(asked, h - 1)
    }

    // How many places up to `h` lie in the window and have b, of those after the last up to `h`
    // that lies in the window and has a.
    #[cycle(counting)]
    #[tactic(auto, using(crate::proofs::Downs::count_steps))]
    fn count(&self, asked: Asked, h: usize) -> u64
        requires within { asked.place ≤ length self.now.log.now }
        requires back { h ≤ asked.place }
        ensures value { result ≡ count_up_to self.now asked h }
        ensures bound { result ≤ h }
    {
        if h == 0 {
            return 0;
        }
        if !self.is_within(asked.window, asked.place, h) {
            return self.count(asked, h - 1);
        }
        if self.holds(usize::from(asked.a), h) {
            return 0; // nor does the resetting line itself count
        }
        self.count(asked, h - 1) + u64::from(self.holds(usize::from(asked.b), h))
    }
}
