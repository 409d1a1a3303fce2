// Why the search refuses.
ghost use Rattle.std.specs.Prelude.{◌≡◌};
ghost use Rattle.graph.specs.Refusals.{refusal};

use refusal::Refusal;

#[derive(Clone, Copy, PartialEq, Eq, Debug)]
pub enum SearchFault {
    // A row is shorter than the graph has nodes.
    ShortRow,
}

impl From<SearchFault> for Refusal {
    ghost from_gives = { λ f r. r ≡ refusal f };

    fn from(fault: SearchFault) -> Refusal {
        match fault {
            SearchFault::ShortRow => Refusal::new(41, 0),
        }
    }
}
