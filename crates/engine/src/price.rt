// What each gate gains and what it costs: the shares and flows of the wires at it, added in one pass over the wires.
ghost use Rattle.std.specs.Prelude.{◌≡◌, ℕ, ◌+◌, ◌<◌, ◌≤◌, if◌then◌else◌, length, slice_index, ◌==◌};
ghost use Rattle.engine.specs.Rows.{Priced};

use crate::rows::Rows;

// Arrays, since the engine takes no allocator. Two rows and not one of pairs, since the same step adds a share at one end
// of a wire and a flow at the other to either.
#[derive(Drop)]
pub(crate) struct Prices {
    pub(crate) gains: [u32; 1024],
    pub(crate) costs: [u32; 1024],
}

// Adds a wire's share at one of its ends and its flow at the other.
fn add(row: &mut [u32], share_end: u16, share: u32, flow_end: u16, flow: u16)
    requires share_gate { share_end < length row.old }
    requires flow_gate { flow_end < length row.old }
    requires bit { share ≤ 1 }
    requires share_room { slice_index row.old share_end ≤ 4294901759 }
    requires flow_room { slice_index row.old flow_end ≤ 4294901759 }
    ensures { (g : ℕ) → slice_index row.new g ≡ slice_index row.old g + (if share_end == g then share else 0) + (if flow_end == g then flow else 0) }
{
    row[share_end as usize] += share;
    row[flow_end as usize] += u32::from(flow);
}

// The share of a wire, where its bundle has this holder.
fn share(holder: u16, wire: usize) -> u32
    ensures value { result ≡ (if holder == wire then 1 else 0) }
    ensures bit { result ≤ 1 }
{
    u32::from(holder as usize == wire)
}

impl Rows<'_> {
    // Adds the shares and flows of all wires to prices of 0. The prices are lent, since each round prices anew, and two rows
    // that are answered would be copied.
    pub(crate) fn price(&self, prices: &mut Prices)
        requires gains { (g : ℕ) → g < self.now.table.gates → slice_index prices.old.gains g ≡ 0 }
        requires costs { (g : ℕ) → g < self.now.table.gates → slice_index prices.old.costs g ≡ 0 }
        ensures { Priced self.now.table.gates self.now.table.links.now self.now.holders self.now.flows prices.new.gains prices.new.costs }
    {
        for (k, link) in self.table.links.iter().enumerate() {
            let bit = share(self.holders[link.bundle as usize], k);
            let flow = self.flows[k];
            add(&mut prices.gains, link.driven, bit, link.driver, flow);
            add(&mut prices.costs, link.driver, bit, link.driven, flow);
        }
    }
}
