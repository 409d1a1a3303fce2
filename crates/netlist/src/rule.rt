// Which wires of one driver share registers: those with equal marks.
ghost use Rattle.std.specs.Prelude.{◌≡◌, ℕ, ◌<◌};
ghost use Rattle.netlist.specs.Tally.{Marking};
ghost use Rattle.std.proofs.Common.{rules};

pub trait Sharing {
    // The mark of a wire by its driver, its driven gate and its number.
    ghost marking: { Self → Marking };

    fn mark(&self, driver: usize, driven: usize, wire: usize) -> usize
        ensures { result ≡ marking self.now driver driven wire };

    // A law, which each rule proves. It stands below the last question: above it it would be data.
    ghost small: { (s : Self) (u v k : ℕ) → k < 4096 → marking s u v k < 4096 };
}

// All wires of a driver share: a register on the deepest serves the others.
#[derive(Clone, Copy)]
pub struct ShareAll;

impl Sharing for ShareAll {
    ghost marking = { λ _ _ _ _. 0 };

    ghost small = { Prim.search rules };

    fn mark(&self, _driver: usize, _driven: usize, _wire: usize) -> usize {
        0
    }
}

// Each wire has its registers alone.
#[derive(Clone, Copy)]
pub struct EachAlone;

impl Sharing for EachAlone {
    ghost marking = { λ _ _ _ k. k };

    ghost small = { Prim.search rules };

    fn mark(&self, _driver: usize, _driven: usize, wire: usize) -> usize {
        wire
    }
}
