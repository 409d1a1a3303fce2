// Rounds until no gate has a surplus that the way moves: with the lags moved, or at unchanged lags.
ghost use Rattle.std.specs.Prelude.{◌≡◌, MatchBool};
ghost use Rattle.retiming.specs.Tied.{opposite};
ghost use Rattle.engine.specs.OfRows.{StateOf, Balanced, HasStuck};
ghost use Rattle.engine.specs.State.{Within};

use crate::outcome::Outcome;
use crate::rows::Rows;
use retiming::way::Way;

impl Rows<'_> {
    // Moves the lags the way's way until that saves no register more. Each stuck set moves as far as it can at once,
    // and shares and flows go on from there.
    pub(crate) fn settle(&mut self, way: Way, lags: &mut [i32])
        requires within { Within self.old.table.gates self.old.table.links.now 1048575 lags.old }
        requires state { StateOf way lags.old lags.old self.old }
        ensures table { self.new.table ≡ self.old.table }
        ensures state { StateOf way lags.old lags.new self.new }
        ensures done { Balanced way self.new }
    {
        'rounds: loop {
            match self.round(way) {
                Outcome::Settled => break 'rounds,
                Outcome::Carried => {}
                Outcome::Stuck(marks) => self.advance(way, &marks, lags),
            }
        }
    }

    // Carries surpluses at unchanged lags, one unit a round. Answers whether none is left that the way moves; if one
    // is, some permitted lags need fewer registers.
    pub(crate) fn balance(&mut self, way: Way) -> bool
        ensures table { self.new.table ≡ self.old.table }
        ensures depths { self.new.depths ≡ self.old.depths }
        ensures verdict { MatchBool result (Balanced way self.new) (HasStuck way self.new) }
        ensures against { Balanced (opposite way) self.old → Balanced (opposite way) self.new }
    {
        'rounds: loop {
            match self.round(way) {
                Outcome::Settled => return true,
                Outcome::Carried => continue 'rounds,
                Outcome::Stuck(_) => return false,
            }
        }
    }
}
