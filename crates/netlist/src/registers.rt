// The registers that a netlist needs under a sharing rule. Time grows with the square of the wires.
ghost use Rattle.std.specs.Prelude.{◌≡◌, ℕ, ◌<◌, ◌≤◌, if◌then◌else◌};
ghost use Rattle.netlist.specs.Tally.{added, tally_of, together, greatest, shared_sum, alone_sum};

use crate::ask::Netlist;
use crate::rule::{EachAlone, ShareAll, Sharing};

// A netlist under a rule.
#[derive(Drop)]
struct Ruled<'a, N: Netlist, S: Sharing> {
    net: &'a N,
    rule: &'a S,
}

impl<N: Netlist, S: Sharing> Ruled<'_, N, S> {
    // The count of a wire that leaves `driver` under `mark`, and 0 of another wire.
    fn count_together(&self, driver: usize, mark: usize, wire: usize) -> u32
        ensures { result ≡ (if together (N.meaning self.now.net.now) (S.marking self.now.rule.now) driver mark wire then (N.meaning self.now.net.now).count wire else 0) }
    {
        let (from, to, count) = self.net.wire(wire);
        if from == driver && self.rule.mark(from, to, wire) == mark {
            count
        } else {
            0
        }
    }

    // The greatest count among the wires before `wire` that leave `driver` under `mark`. It is the tally's inner loop: each
    // wire is asked once, none is passed over by a branch, which would be guessed wrong where drivers alternate, and two
    // counts are kept in turn, so that no wire waits for what came of the one before it.
    fn deepest_before(&self, driver: usize, mark: usize, wire: usize) -> u32
        ensures { result ≡ greatest (together (N.meaning self.now.net.now) (S.marking self.now.rule.now) driver mark) (N.meaning self.now.net.now).count wire }
    {
        let (one, other) = (0..wire).fold(
            (0, 0),
            |(one, other), k| (other, self.count_together(driver, mark, k).max(one)),
        );
        one.max(other)
    }

    // The registers that a wire needs beyond those of the earlier wires in its bundle.
    fn added_by(&self, wire: usize) -> u32
        ensures { result ≡ added (N.meaning self.now.net.now) (S.marking self.now.rule.now) wire }
    {
        let (driver, driven, count) = self.net.wire(wire);
        if count == 0 {
            return 0;
        }
        let mark = self.rule.mark(driver, driven, wire);
        count.saturating_sub(self.deepest_before(driver, mark, wire))
    }
}

// The sum over bundles of the greatest count in each.
pub fn tally<N: Netlist, S: Sharing>(net: &N, rule: &S) -> u64
    ensures { result ≡ tally_of (N.meaning net.now) (S.marking rule.now) }
{
    let ruled = Ruled { net, rule };
    (0..net.wire_count())
        .map(|k| u64::from(ruled.added_by(k)))
        .sum()
}

// The register sum of Leiserson and Saxe, "Retiming synchronous circuitry": all wires of a driver share.
pub fn shared_tally<N: Netlist>(net: &N) -> u64
    ensures { result ≡ shared_sum (N.meaning net.now) }
{
    tally(net, &ShareAll)
}

// The register sum in which each wire counts for itself (Gaujal and Mairesse, "Minimization of circuit registers:
// retiming revisited", have both sums).
pub fn alone_tally<N: Netlist>(net: &N) -> u64
    ensures { result ≡ alone_sum (N.meaning net.now) }
{
    tally(net, &EachAlone)
}
