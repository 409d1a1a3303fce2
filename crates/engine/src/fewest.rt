// The fewest registers one way, from the present lags. What is known of the lags stands in
// clauses, since they are the caller's row.
ghost use Rattle.std.specs.Prelude.{◌≡◌, ℕ, ◌<◌, ◌≤◌, length};
ghost use Rattle.netlist.specs.Lags.{under};
ghost use Rattle.retiming.specs.Nearest.{Nearest};
ghost use Rattle.engine.specs.State.{Within};
ghost use Rattle.engine.specs.Table.{Standing, table, bundles, fixed_of, lags_of};

use crate::rows::Rows;
use crate::table::Table;
use retiming::way::Way;

impl Table<'_> {
    // Moves the lags the way's way to where the fewest registers are needed, as near as that can be had. Answers the
    // registers needed before and after.
    pub(crate) fn seek(&self, way: Way, lags: &mut [i32]) -> (u64, u64)
        requires standing { Standing self.now.gates self.now.links.now lags.old }
        requires within { Within self.now.gates self.now.links.now 1048575 lags.old }
        ensures nearest { Nearest way (table self.now.gates self.now.links.now) (bundles self.now.links.now) (fixed_of self.now.fixed.now) (lags_of lags.old) (lags_of lags.new) result.0 result.1 }
        ensures counts { (k : ℕ) → k < length self.now.links.now → (under (table self.now.gates self.now.links.now) (lags_of lags.new)).count k ≤ result.1 }
        ensures past { (g : ℕ) → self.now.gates ≤ g → lags_of lags.new g ≡ lags_of lags.old g }
        ensures within { (bound : ℕ) → Within self.now.gates self.now.links.now bound lags.old → Within self.now.gates self.now.links.now bound lags.new }
    {
        let mut rows = Rows::begin(self, lags);
        let before = self.needed(&rows.depths, &rows.holders);
        rows.settle(way, lags);
        (before, self.needed(&rows.depths, &rows.holders))
    }
}
