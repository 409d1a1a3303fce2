// The moves of one unit of surplus over a wire, the numbers they go by, and what they change.
ghost use Rattle.std.specs.Prelude.{◌≡◌, ◌<◌, ◌≤◌, true, length};
ghost use Rattle.engine.specs.Carried.{flows_after, holders_after};
ghost use Rattle.engine.specs.Leftover.{possible};
ghost use Rattle.engine.specs.Moves.{numbered, wire_of};

use crate::rows::Rows;

#[derive(Clone, Copy)]
pub(crate) enum Move {
    // One more of flow on the wire.
    More(usize),
    // One less of flow on the wire.
    Less(usize),
    // The share of the wire's bundle to the wire.
    Hand(usize),
}

// First come the moves of more flow, then those of less, then those of a share, each in the order of the wires.
pub(crate) fn move_at(wires: usize, a: usize) -> Move
    requires { wires ≤ 4096 }
    ensures { result ≡ numbered wires a }
{
    if a < wires {
        Move::More(a)
    } else if a < 2 * wires {
        Move::Less(a - wires)
    } else {
        Move::Hand(a - 2 * wires)
    }
}

impl Rows<'_> {
    // Makes a move that the rows leave.
    pub(crate) fn make(&mut self, m: Move)
        requires wire { wire_of m < length self.old.table.links.now }
        requires possible { possible self.old.table.links.now self.old.depths self.old.holders self.old.flows m ≡ true }
        ensures table { self.new.table ≡ self.old.table }
        ensures depths { self.new.depths ≡ self.old.depths }
        ensures holders { self.new.holders ≡ holders_after self.old.table.links.now m self.old.holders }
        ensures flows { self.new.flows ≡ flows_after m self.old.flows }
    {
        match m {
            Move::More(k) => self.flows[k] += 1,
            Move::Less(k) => self.flows[k] -= 1,
            Move::Hand(k) => self.holders[self.table.links[k].bundle as usize] = k as u16,
        }
    }
}
