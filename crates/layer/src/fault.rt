// Why the check of an interleaving refuses.
ghost use Rattle.std.specs.Prelude.{◌≡◌};
ghost use Rattle.layer.specs.Refusals.{refusal};

use refusal::Refusal;

#[derive(Clone, Copy, PartialEq, Eq, Debug)]
pub enum LayerFault {
    // The factor is not one of 1 to 15.
    BadFactor,
    // The count of the wire times the factor is over 1,048,575; no lower wire has that fault.
    CountTooLarge(usize),
}

impl From<LayerFault> for Refusal {
    ghost from_gives = { λ f r. r ≡ refusal f };

    fn from(fault: LayerFault) -> Refusal {
        match fault {
            LayerFault::BadFactor => Refusal::new(21, 0),
            LayerFault::CountTooLarge(wire) => Refusal::new(22, wire),
        }
    }
}
