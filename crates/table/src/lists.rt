// Small lists of wires beside the verdict that each must get, and beside what settling a netlist leaves in them.
use crate::reported::reported;
use crate::wires::wire;
use output::records::settle;
use std::test::Fail;
use wiring::list;
use wiring::wire::Wire;

// Each row: the numbers of gates and pins, the wires, and the verdict: Ok, or the number and the place of the refusal.
const ROWS: [(usize, usize, &[(u16, u16, u32)], Result<(), (u16, usize)>); 9] = [
    (0, 0, &[], Ok(())),
    // the most gates, and one more; more pins than gates
    (1024, 1024, &[], Ok(())),
    (1025, 0, &[], Err((12, 0))),
    (2, 3, &[], Err((12, 0))),
    // an end that is no gate
    (2, 0, &[(0, 1, 1), (1, 2, 1)], Err((14, 1))),
    // the greatest count, and one more
    (2, 0, &[(0, 1, 0), (1, 0, 1_048_575)], Ok(())),
    (2, 0, &[(0, 1, 0), (1, 0, 1_048_576)], Err((15, 1))),
    // a round of two wires behind one that is on none, without a register and with one
    (3, 1, &[(2, 0, 0), (0, 1, 0), (1, 0, 0)], Err((16, 1))),
    (3, 1, &[(2, 0, 0), (0, 1, 0), (1, 0, 1)], Ok(())),
];

#[test]
fn each_list_gets_its_verdict(rt: HostRuntime) -> Result<(), Fail> {
    for (gates, pins, rows, verdict) in ROWS {
        let wires: Vec<Wire> = rows.iter().copied().map(wire).collect(rt.alloc())?;
        assert_eq!(rt;
            reported(list::check(gates, pins, wires.as_slice())),
            verdict
        );
    }
    Ok(())
}

const A: (u16, u16, u32) = (0, 1, 3);

const B: (u16, u16, u32) = (1, 2, 0);

const C: (u16, u16, u32) = (2, 0, 1_048_575);

const OLD: (u16, u16, u32) = (9, 9, 9);

// Each row: how much of a list of five old records is lent, what settling the wires A, B and C into it answers (their
// number, or the number and the place of the refusal), and the list afterwards.
const SETTLED: [(usize, Result<usize, (u16, usize)>, [(u16, u16, u32); 5]); 5] = [
    (0, Err((20, 0)), [OLD, OLD, OLD, OLD, OLD]),
    (2, Err((20, 0)), [OLD, OLD, OLD, OLD, OLD]),
    (3, Ok(3), [A, B, C, OLD, OLD]),
    (4, Ok(3), [A, B, C, OLD, OLD]),
    (5, Ok(3), [A, B, C, OLD, OLD]),
];

#[test]
fn settling_fills_the_front_or_leaves_the_list(rt: HostRuntime) -> Result<(), Fail> {
    let net = list::open(rt.alloc(), 3, 1, &[A, B, C].map(wire))?;
    for (lent, answer, after) in SETTLED {
        let mut records = [OLD; 5].map(wire);
        assert!(rt; lent <= records.len());
        assert_eq!(rt; reported(settle(&net, &mut records[..lent])), answer);
        assert_eq!(rt; records, after.map(wire));
    }
    Ok(())
}
