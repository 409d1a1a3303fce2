// What the engine answers, found again by trying all lags in a box around the present ones. Shares no code with it.
// Moves and distances are arrays of five: no net has more gates, and the search's inner loop then allocates nothing.
ghost use Rattle.std.specs.Prelude.{◌<◌};

use crate::net::{Net, lag_of};
use retiming::way::Way;

// The moves that are tried for each gate that is not fixed: so many, from the lowest upward. Together they are a box.
#[derive(Clone, Copy)]
pub(crate) struct Moves {
    lowest: i32,
    tried: u64,
    ghost some: { 0 < tried },
}

// The fewest registers over a box, and how far each gate has to move at least for as few.
#[derive(Drop)]
pub(crate) struct Found {
    pub(crate) tally: u64,
    pub(crate) nearest: [u32; 5],
}

impl Moves {
    // The moves one way, as far as depth.
    pub(crate) fn one_way(way: Way, depth: u32) -> Moves {
        let lowest = match way {
            Way::Forward => 0i32.saturating_sub_unsigned(depth),
            Way::Back => 0,
        };
        Moves {
            lowest,
            tried: u64::from(depth) + 1,
        }
    }

    // The moves both ways, as far as 4.
    pub(crate) fn both_ways() -> Moves {
        Moves {
            lowest: -4,
            tried: 9,
        }
    }

    // Tries every place of the box.
    pub(crate) fn search(self, net: &Net) -> Found {
        let mut found = Found {
            tally: u64::MAX,
            nearest: [u32::MAX; 5],
        };
        for number in 0..self.places(net) {
            let moved = self.place(net, number);
            if let Some(registers) = net.tally(&shifted(net, &moved)) {
                found.note(registers, &moved);
            }
        }
        found
    }

    // How many places the box has.
    fn places(self, net: &Net) -> u64 {
        net.fixed
            .iter()
            .filter(|fixed| !**fixed)
            .fold(1u64, |all, _| all.saturating_mul(self.tried))
    }

    // The move of each gate at one place of the box. Over all five steps, since a loop of a fixed length is unrolled.
    fn place(self, net: &Net, number: u64) -> [i32; 5] {
        let mut moved = [0i32; 5];
        let mut rest = number;
        for (gate, step) in moved.iter_mut().enumerate() {
            if net.is_free(gate) {
                *step = self
                    .lowest
                    .saturating_add(i32::try_from(rest % self.tried).unwrap_or(0));
                rest /= self.tried;
            }
        }
        moved
    }
}

impl Found {
    // Takes lags with a tally into account.
    fn note(&mut self, tally: u64, moved: &[i32; 5]) {
        if tally < self.tally {
            self.tally = tally;
            self.nearest = [u32::MAX; 5];
        }
        if tally == self.tally {
            for (nearest, step) in self.nearest.iter_mut().zip(moved.iter()) {
                *nearest = step.unsigned_abs().min(*nearest);
            }
        }
    }
}

// The net's lags after the moves.
fn shifted(net: &Net, moved: &[i32; 5]) -> [i32; 5] {
    let mut lags = *moved;
    for (gate, lag) in lags.iter_mut().enumerate() {
        *lag = lag_of(net.lags.as_slice(), gate).saturating_add(*lag);
    }
    lags
}
