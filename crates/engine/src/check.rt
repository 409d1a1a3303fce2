// The check of a table: what the engine is given may be anything. What is known of the lags stands in
// clauses, since they are the caller's row.
ghost use Rattle.std.specs.Prelude.{◌≡◌, ◌+◌, ◌<◌, ◌≤◌, length, EachIndex, IsTrue, ◌↔◌, MatchOption, unsigned_abs};
ghost use Rattle.engine.specs.Fit.{Sized, AllSized, OneDriver, Near, Stands, Fit};
ghost use Rattle.engine.specs.State.{Within};
ghost use Rattle.engine.specs.Table.{lags_of, Tabled, Standing};

use crate::link::Link;
use crate::table::Table;

impl Link {
    // Whether the numbers of a wire are within their limits.
    fn is_sized(self, gates: usize) -> bool
        ensures { IsTrue result ↔ Sized gates self }
    {
        (self.driver as usize) < gates
            && (self.driven as usize) < gates
            && self.bundle < 4096
            && self.count <= 1_048_575
    }
}

fn are_sized(gates: usize, links: &[Link]) -> bool
    ensures { IsTrue result ↔ AllSized gates links.now }
{
    links.iter().all(|link| link.is_sized(gates))
}

// Whether the wires of each bundle have one driver: the first wire of a bundle says which.
fn has_one_driver(gates: usize, links: &[Link]) -> bool
    requires sized { AllSized gates links.now }
    ensures { IsTrue result ↔ OneDriver links.now }
{
    let mut owners = [None; 4096];
    for link in links {
        let bundle = link.bundle as usize;
        match owners[bundle] {
            None => owners[bundle] = Some(link.driver),
            Some(driver) if driver != link.driver => return false,
            Some(_) => {}
        }
    }
    true
}

// Whether each lag and so many registers add to no more than 1,048,575.
fn are_within(registers: u64, lags: &[i32]) -> bool
    ensures { IsTrue result ↔ EachIndex lags.now (λ g. unsigned_abs (lags_of lags.now g) + registers ≤ 1048575) }
{
    lags.iter().all(|lag| u64::from(lag.unsigned_abs()).saturating_add(registers) <= 1_048_575)
}

impl<'a> Table<'a> {
    // The table of these sizes, wires and fixed gates, where they are within the limits.
    fn new(gates: usize, links: &'a [Link], fixed: &'a [bool]) -> Option<Table<'a>>
        ensures { MatchOption result (Tabled gates links.now × (gates ≤ length fixed.now) → ⊥) (λ t. (t.gates ≡ gates) × (t.links.now ≡ links.now) × (t.fixed.now ≡ fixed.now)) }
    {
        if gates > 1024 || links.len() > 4096 || fixed.len() < gates {
            return None;
        }
        if !are_sized(gates, links) || !has_one_driver(gates, links) {
            return None;
        }
        Some(Table {
            gates,
            links,
            fixed,
        })
    }

    // Whether no count is below 0 under lags that are near 0.
    fn are_standing(&self, lags: &[i32]) -> bool
        requires long { self.now.gates ≤ length lags.now }
        requires near { Near self.now.gates lags.now }
        ensures { IsTrue result ↔ Stands self.now.gates self.now.links.now lags.now }
    {
        // A `for`: as `all` it was tried, and the check found no bound on the ends of a wire in the closure.
        for link in self.links {
            if link.lagged(lags) < 0 {
                return false;
            }
        }
        true
    }

    // Whether each lag and the registers needed add to no more than 1,048,575.
    fn is_within(&self, lags: &[i32]) -> bool
        requires { Standing self.now.gates self.now.links.now lags.now }
        ensures { IsTrue result ↔ Within self.now.gates self.now.links.now 1048575 lags.now }
    {
        let mut depths = [0; 4096];
        self.read_depths(lags, &mut depths);
        let holders = self.holders(&depths);
        are_within(self.needed(&depths, &holders), &lags[..self.gates])
    }

    // The table, where it and the lags are fit for the engine.
    pub(crate) fn fit(
        gates: usize,
        links: &'a [Link],
        fixed: &'a [bool],
        lags: &[i32],
    ) -> Option<Table<'a>>
        ensures { MatchOption result (Fit gates links.now fixed.now lags.now → ⊥) (λ t. (t.gates ≡ gates) × (t.links.now ≡ links.now) × (t.fixed.now ≡ fixed.now) × Fit gates links.now fixed.now lags.now) }
    {
        let table = Table::new(gates, links, fixed)?;
        let near = lags.get(..gates).is_some_and(|front| are_within(0, front));
        if near && table.are_standing(lags) && table.is_within(lags) {
            Some(table)
        } else {
            None
        }
    }
}
