// Whether any permitted lags at all need fewer registers, and the witness that none do.
// What is known of the lags stands in clauses, since they are the caller's row.
ghost use Rattle.std.specs.Prelude.{◌≡◌, ℕ, ◌<◌, ◌≤◌, length, MatchOption, slice_index};
ghost use Rattle.netlist.specs.Lags.{under};
ghost use Rattle.retiming.specs.Witness.{Witness};
ghost use Rattle.engine.specs.Rows.{shares, flows};
ghost use Rattle.engine.specs.State.{Better};
ghost use Rattle.engine.specs.Table.{Standing, table, bundles, fixed_of, lags_of};

use crate::rows::Rows;
use crate::table::Table;
use retiming::way::Way;

impl<'a> Table<'a> {
    // Balances the gates both ways at the lags as they are. Answers the rows where that leaves a witness in them.
    pub(crate) fn witness(&self, lags: &[i32]) -> Option<Rows<'a>>
        requires { Standing self.now.gates self.now.links.now lags.now }
        ensures { MatchOption result (Better self.now.gates self.now.links.now self.now.fixed.now lags.now lags.now) (λ r. (r.table ≡ self.now) × Witness (under (table self.now.gates self.now.links.now) (lags_of lags.now)) (bundles self.now.links.now) (fixed_of self.now.fixed.now) (shares self.now.links.now r.holders) (flows r.flows)) }
    {
        let mut rows = Rows::begin(self, lags);
        if rows.balance(Way::Forward) && rows.balance(Way::Back) {
            Some(rows)
        } else {
            None
        }
    }
}

impl Rows<'_> {
    // Writes 1 for each wire that holds the share of its bundle, and 0 for each other wire.
    pub(crate) fn write_shares(&self, row: &mut [u16])
        requires { length self.now.table.links.now ≤ length row.old }
        ensures written { (k : ℕ) → k < length self.now.table.links.now → slice_index row.new k ≡ shares self.now.table.links.now self.now.holders k }
        ensures past { (k : ℕ) → length self.now.table.links.now ≤ k → slice_index row.new k ≡ slice_index row.old k }
    {
        for (k, link) in self.table.links.iter().enumerate() {
            row[k] = u16::from(self.holders[link.bundle as usize] as usize == k);
        }
    }

    // Writes the flow of each wire.
    pub(crate) fn write_flows(&self, row: &mut [u16])
        requires { length self.now.table.links.now ≤ length row.old }
        ensures written { (k : ℕ) → k < length self.now.table.links.now → slice_index row.new k ≡ slice_index self.now.flows k }
        ensures past { (k : ℕ) → length self.now.table.links.now ≤ k → slice_index row.new k ≡ slice_index row.old k }
    {
        let wires = self.table.links.len();
        row[..wires].copy_from_slice(&self.flows[..wires]);
    }
}
