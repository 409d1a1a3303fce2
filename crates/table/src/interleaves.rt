// A small netlist interleaved: the verdict on each factor, and the counts that opening shows.
use crate::reported::reported;
use crate::wires::wire;
use layer::interleave;
use netlist::ask::Netlist;
use std::alloc::{AllocError, Global};
use std::test::Fail;
use wiring::list;
use wiring::owned::Wiring;

// Three gates in a ring, of which the first is pinned, with these counts.
fn ring(heap: Global, counts: [u32; 3]) -> Result<Wiring, AllocError> {
    let [first, second, third] = counts;
    let wires = [(0, 1, first), (1, 2, second), (2, 0, third)].map(wire);
    list::open(heap, 3, 1, &wires)
}

fn counts<N: Netlist>(net: &N) -> [u32; 3] {
    [0, 1, 2].map(|k| net.wire(k).2)
}

// Each row: the counts, the factor, the verdict on it (Ok, or the number and the place of the refusal), and the counts
// that are shown.
const ROWS: [([u32; 3], u32, Result<(), (u16, usize)>, [u32; 3]); 10] = [
    // no factor
    ([0, 1, 2], 0, Err((21, 0)), [0, 1, 2]),
    ([0, 1, 2], 16, Err((21, 0)), [0, 1, 2]),
    ([0, 1, 2], 4_294_967_295, Err((21, 0)), [0, 1, 2]),
    // the least and the greatest factor, and two turns
    ([0, 1, 2], 1, Ok(()), [0, 1, 2]),
    ([0, 1, 2], 15, Ok(()), [0, 15, 30]),
    ([0, 1, 2], 2, Ok(()), [0, 2, 4]),
    // the greatest count that the factor 15 suits, and one more; the lowest wire is named
    ([0, 69_905, 1], 15, Ok(()), [0, 1_048_575, 15]),
    (
        [0, 69_906, 1_048_575],
        15,
        Err((22, 1)),
        [0, 69_906, 1_048_575],
    ),
    (
        [0, 69_906, 1_048_575],
        2,
        Err((22, 2)),
        [0, 69_906, 1_048_575],
    ),
    // the factor is looked at first
    (
        [0, 69_906, 1_048_575],
        16,
        Err((21, 0)),
        [0, 69_906, 1_048_575],
    ),
];

#[test]
fn each_factor_gets_its_verdict_and_its_counts(rt: HostRuntime) -> Result<(), Fail> {
    for (below, factor, verdict, shown) in ROWS {
        let net = ring(rt.alloc(), below)?;
        assert_eq!(rt; reported(interleave::check(&net, factor)), verdict);
        let turns = interleave::open(rt.alloc(), &net, factor)?;
        assert_eq!(rt; counts(&turns), shown);
        assert_eq!(rt; turns.gate_count(), 3);
        assert_eq!(rt; turns.is_pinned(0), true);
        assert_eq!(rt; turns.is_pinned(1), false);
    }
    Ok(())
}

#[test]
fn layers_pile_up(rt: HostRuntime) -> Result<(), Fail> {
    let net = ring(rt.alloc(), [0, 1, 2])?;
    let two = interleave::open(rt.alloc(), &net, 2)?;
    let six = interleave::open(rt.alloc(), &two, 3)?;
    assert_eq!(rt; counts(&six), [0, 6, 12]);
    Ok(())
}
