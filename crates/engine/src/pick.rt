// Which gates have a surplus to move, and which take one. The way comes beside the prices, which are the same for both.
// Marks are an array, since the engine takes no allocator.
ghost use Rattle.std.specs.Prelude.{◌<◌, MatchBool};
ghost use Rattle.retiming.specs.Tied.{Excess, Spent};
ghost use Rattle.engine.specs.Pick.{Seed, Idle, Sink, NoSink, NoSeed, SomeSeeds, FirstSink};

use crate::price::Prices;
use crate::table::Table;
use retiming::way::Way;

// Whether a gate with such a gain and cost has a surplus that the way moves.
fn exceeds(way: Way, gain: u32, cost: u32) -> bool
    ensures { MatchBool result (Excess way gain cost) (Spent way gain cost) }
{
    match way {
        Way::Forward => cost < gain,
        Way::Back => gain < cost,
    }
}

impl Table<'_> {
    // Whether a gate may move and has a surplus to move.
    fn is_seed(&self, way: Way, prices: &Prices, gate: usize) -> bool
        requires { gate < self.now.gates }
        ensures { MatchBool result (Seed way self.now.fixed.now prices.now.gains prices.now.costs gate) (Idle way self.now.fixed.now prices.now.gains prices.now.costs gate) }
    {
        !self.fixed[gate] && exceeds(way, prices.gains[gate], prices.costs[gate])
    }

    // Whether a gate takes a surplus: a fixed one, or one that lacks a surplus.
    fn is_sink(&self, way: Way, prices: &Prices, gate: usize) -> bool
        requires { gate < self.now.gates }
        ensures { MatchBool result (Sink way self.now.fixed.now prices.now.gains prices.now.costs gate) (NoSink way self.now.fixed.now prices.now.gains prices.now.costs gate) }
    {
        self.fixed[gate] || exceeds(way.opposite(), prices.gains[gate], prices.costs[gate])
    }

    // Marks 1 each gate that may move and has a surplus to move, and 0 the others. Answers whether there is one. The marks
    // are lent, since an `Option` of them would be copied in each round.
    pub(crate) fn mark_seeds(&self, way: Way, prices: &Prices, marks: &mut [u8; 1024]) -> bool
        ensures { MatchBool result (SomeSeeds way self.now.gates self.now.fixed.now prices.now.gains prices.now.costs marks.new) (NoSeed way self.now.gates self.now.fixed.now prices.now.gains prices.now.costs) }
    {
        let mut some = false;
        // By number, by which gates are asked: over `iter_mut` it was tried, with one test more and a longer proof.
        for gate in 0..self.gates {
            if self.is_seed(way, prices, gate) {
                marks[gate] = 1;
                some = true;
            } else {
                marks[gate] = 0;
            }
        }
        some
    }

    // A marked gate that takes a surplus.
    pub(crate) fn sink(&self, way: Way, prices: &Prices, marks: &[u8; 1024]) -> Option<usize>
        ensures { FirstSink way self.now.gates self.now.fixed.now prices.now.gains prices.now.costs marks.now result }
    {
        (0..self.gates).find(|gate| marks[*gate] == 1 && self.is_sink(way, prices, *gate))
    }
}
