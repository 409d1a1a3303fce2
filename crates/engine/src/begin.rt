// The rows to begin with at given lags, each filled in one pass over the wires, and the registers that the lags need.
// The lags are the caller's row, which moving them changes, so what is known of them stands in clauses and in no type.
ghost use Rattle.std.specs.Prelude.{◌≡◌, ℕ, ◌+◌, ◌<◌, ◌≤◌, List, length, ℤ, pos, ◌+ℤ◌, ◌-ℤ◌, slice_index, slice_index_or, unsigned_abs};
ghost use Rattle.engine.specs.Rows.{Depths, Holding};
ghost use Rattle.engine.specs.State.{needs_of};
ghost use Rattle.engine.specs.Table.{Standing};

use crate::link::Link;
use crate::rows::Rows;
use crate::table::Table;

impl Link {
    // The count of a wire under lags, which may be below 0.
    pub(crate) fn lagged(self, lags: &[i32]) -> i32
        requires count { self.count ≤ 1048575 }
        requires driver { self.driver < length lags.now }
        requires driven { self.driven < length lags.now }
        requires driver_near { unsigned_abs (slice_index_or lags.now self.driver (pos 0)) ≤ 1048575 }
        requires driven_near { unsigned_abs (slice_index_or lags.now self.driven (pos 0)) ≤ 1048575 }
        ensures { result ≡ ((pos self.count +ℤ slice_index_or lags.now self.driven (pos 0)) -ℤ slice_index_or lags.now self.driver (pos 0)) }
    {
        self.count as i32 + lags[self.driven as usize] - lags[self.driver as usize]
    }
}

impl Table<'_> {
    // Reads the counts under lags, in place: a step reads them anew, and a row of its own would be cleared and copied.
    pub(crate) fn read_depths(&self, lags: &[i32], depths: &mut [u32; 4096])
        requires { Standing self.now.gates self.now.links.now lags.now }
        ensures { Depths self.now.gates self.now.links.now lags.now depths.new }
    {
        for (k, link) in self.links.iter().enumerate() {
            depths[k] = link.lagged(lags) as u32;
        }
    }

    // For each bundle its first wire with the greatest count. Until the bundle has one, what stands in its place is told by
    // that wire's own bundle, so that the row needs no `Option`, which each reader would have to take apart.
    pub(crate) fn holders(&self, depths: &[u32; 4096]) -> [u16; 4096]
        ensures { (row : List ℕ) → length self.now.links.now ≤ length row → ((k : ℕ) → k < length self.now.links.now → slice_index row k ≡ 0) → Holding self.now.links.now depths.now result row }
    {
        let mut holders = [0; 4096];
        for (k, link) in self.links.iter().enumerate() {
            let bundle = link.bundle as usize;
            let holder = holders[bundle] as usize;
            if self.links[holder].bundle != link.bundle || depths[holder] < depths[k] {
                holders[bundle] = k as u16;
            }
        }
        holders
    }

    // The registers that lags need: the counts under them of the wires that hold a share, added. The two rows are lent, and
    // not `Rows`, since the check of the lags needs no more.
    pub(crate) fn needed(&self, depths: &[u32; 4096], holders: &[u16; 4096]) -> u64
        ensures { (lags : List ℤ) (row : List ℕ) → Depths self.now.gates self.now.links.now lags depths.now → Holding self.now.links.now depths.now holders.now row → result ≡ needs_of self.now.gates self.now.links.now lags }
    {
        let mut sum = 0;
        for (k, link) in self.links.iter().enumerate() {
            if holders[link.bundle as usize] as usize == k {
                sum += u64::from(depths[k]);
            }
        }
        sum
    }
}

impl<'a> Rows<'a> {
    // The counts under the lags, with shares to go by them and no flow yet.
    pub(crate) fn begin(table: &Table<'a>, lags: &[i32]) -> Rows<'a>
        requires { Standing table.now.gates table.now.links.now lags.now }
        ensures table { result.table ≡ table.now }
        ensures depths { Depths table.now.gates table.now.links.now lags.now result.depths }
    {
        let mut depths = [0; 4096];
        table.read_depths(lags, &mut depths);
        let holders = table.holders(&depths);
        let flows = [0; 4096];
        Rows {
            table: *table,
            depths,
            holders,
            flows,
        }
    }
}
