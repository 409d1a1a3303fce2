// A long step: how far a set of stuck gates can move as one, and the move. A set is its marks. The way comes beside
// them: in one value with them it would have to be shown in each clause to be the way of the round.
ghost use Rattle.std.specs.Prelude.{◌≡◌, ℕ, ◌+◌, ◌<◌, ◌≤◌, List, ℤ, length, unsigned_abs};
ghost use Rattle.retiming.specs.Push.{push, pushed_by, only_on};
ghost use Rattle.engine.specs.OfRows.{StateOf};
ghost use Rattle.engine.specs.Round.{Stuck};
ghost use Rattle.engine.specs.State.{Within, needs_of};
ghost use Rattle.engine.specs.Step.{inside, beyond, Slack, SlackAt};
ghost use Rattle.engine.specs.Table.{lags_of};

use crate::rows::Rows;
use retiming::way::Way;

// Whether a gate with such a mark is on the side from which moves lead.
fn is_beyond(way: Way, mark: u8) -> bool
    ensures { result ≡ beyond way mark }
{
    match way {
        Way::Forward => mark == 1,
        Way::Back => mark != 1,
    }
}

// Twice the greatest tally: no set can move so far, so a wire that sets no limit may answer it.
const FAR: u32 = 2_097_152;

// A lag that is near 0, moved.
fn pushed(way: Way, by: u32, lag: i32) -> i32
    requires near { unsigned_abs lag ≤ 1048575 }
    requires small { by ≤ 2097152 }
    ensures { result ≡ push way by lag }
{
    match way {
        Way::Forward => lag - by as i32,
        Way::Back => lag + by as i32,
    }
}

// Moves the lags of the marked gates.
fn move_lags(way: Way, gates: usize, by: u32, marks: &[u8; 1024], lags: &mut [i32])
    requires few { gates ≤ 1024 }
    requires lags { gates ≤ length lags.old }
    requires near { (g : ℕ) → g < gates → unsigned_abs (lags_of lags.old g) ≤ 1048575 }
    requires by { by ≤ 2097152 }
    ensures { (g : ℕ) → lags_of lags.new g ≡ pushed_by way (only_on (inside gates marks.now) by) (lags_of lags.old) g }
{
    // By number: over `iter_mut` of the front it is no plainer, since its proof has to join that to the lags past it.
    for g in 0..gates {
        if marks[g] == 1 {
            lags[g] = pushed(way, by, lags[g]);
        }
    }
}

impl Rows<'_> {
    // How far the marked gates can move before wire k leaves no slack.
    fn slack_at(&self, way: Way, marks: &[u8; 1024], k: usize) -> u32
        requires wire { k < length self.now.table.links.now }
        requires open { SlackAt way self.now.table.links.now self.now.depths self.now.holders marks.now 1 k }
        ensures some { 0 < result }
        ensures small { result ≤ 2097152 }
        ensures slack { SlackAt way self.now.table.links.now self.now.depths self.now.holders marks.now result k }
    {
        let link = self.table.links[k];
        let holder = self.holders[link.bundle as usize] as usize;
        let into = is_beyond(way, marks[link.driven as usize]);
        if into && !is_beyond(way, marks[link.driver as usize]) {
            return FAR.min(self.depths[k]);
        }
        if !into && is_beyond(way, marks[self.table.links[holder].driven as usize]) {
            return FAR.min(self.depths[holder] - self.depths[k]);
        }
        FAR
    }

    // How far the marked gates can move as one.
    fn slack(&self, way: Way, marks: &[u8; 1024]) -> u32
        requires open { Slack way self.now.table.links.now self.now.depths self.now.holders marks.now 1 }
        ensures some { 0 < result }
        ensures small { result ≤ 2097152 }
        ensures slack { Slack way self.now.table.links.now self.now.depths self.now.holders marks.now result }
    {
        let mut least = FAR;
        // A `for`: as `map` and `min` it was tried, and the check did not find that each wire has such a slack.
        for k in 0..self.table.links.len() {
            least = least.min(self.slack_at(way, marks, k));
        }
        least
    }

    // Moves the lags of a stuck set as far as it can move at once; shares and flows go on from there.
    pub(crate) fn advance(&mut self, way: Way, marks: &[u8; 1024], lags: &mut [i32])
        requires stuck { Stuck way self.old.table.gates self.old.table.links.now self.old.table.fixed.now self.old.depths self.old.holders self.old.flows marks.now }
        requires state { (first : List ℤ) × StateOf way first lags.old self.old × Within self.old.table.gates self.old.table.links.now 1048575 first }
        ensures table { self.new.table ≡ self.old.table }
        ensures holders { self.new.holders ≡ self.old.holders }
        ensures flows { self.new.flows ≡ self.old.flows }
        ensures state { (first : List ℤ) → Within self.old.table.gates self.old.table.links.now 1048575 first → StateOf way first lags.old self.old → StateOf way first lags.new self.new }
        ensures fewer { needs_of self.old.table.gates self.old.table.links.now lags.new + 1 ≤ needs_of self.old.table.gates self.old.table.links.now lags.old }
    {
        let by = self.slack(way, marks);
        move_lags(way, self.table.gates, by, marks, lags);
        let table = self.table;
        table.read_depths(lags, &mut self.depths);
    }
}
