// Small netlists beside what writing each as a file answers and leaves in the row of bytes.
use crate::reported::reported;
use crate::wires::wire;
use output::fault::{RewriteFault, WriteFault};
use output::file::{rewrite, write};
use std::alloc::{AllocError, Global};
use std::test::Fail;
use wiring::owned::Wiring;

// Two gates with a wire each way between them, of which the first has 255 registers: which gates are pinned, and the
// count of the second wire.
fn pair(heap: Global, pinned: [bool; 2], count: u32) -> Result<Wiring, AllocError> {
    let wires = [(0, 1, 255), (1, 0, count)].map(wire);
    Wiring::open(heap, pinned.to_vec(heap)?, &wires)
}

// A row of old bytes, and the same with the file of such a pair in front.
const OLD: [u8; 19] = [7; 19];

const ONE: [u8; 19] = [2, 0, 1, 0, 2, 0, 0, 0, 1, 0, 1, 0, 0, 0, 255, 0, 1, 0, 7];

const MOST: [u8; 19] = [2, 0, 0, 0, 2, 0, 0, 0, 1, 0, 1, 0, 0, 0, 255, 0, 255, 0, 7];

// Each row: which gates are pinned, the count of the second wire, how much of the row of bytes is lent, what writing
// answers (the file's length, or the number and the place of the refusal), and the row afterwards.
const ROWS: [([bool; 2], u32, usize, Result<usize, (u16, usize)>, [u8; 19]); 8] = [
    // one byte too few, just enough, and more
    ([true, false], 1, 17, Err((17, 0)), OLD),
    ([true, false], 1, 18, Ok(18), ONE),
    ([true, false], 1, 19, Ok(18), ONE),
    // the greatest count, and one more
    ([false, false], 255, 19, Ok(18), MOST),
    ([false, false], 256, 19, Err((18, 1)), OLD),
    // a pinned gate above one that is not
    ([false, true], 255, 19, Err((19, 1)), OLD),
    // the count before the pin, and the row before both
    ([false, true], 256, 18, Err((18, 1)), OLD),
    ([false, true], 256, 17, Err((17, 0)), OLD),
];

#[test]
fn a_file_is_written_or_the_row_is_left(rt: HostRuntime) -> Result<(), Fail> {
    for (pinned, count, lent, answer, after) in ROWS {
        let net = pair(rt.alloc(), pinned, count)?;
        let mut row = OLD;
        assert!(rt; lent <= 19);
        assert_eq!(rt; reported(write(&net, &mut row[..lent])), answer);
        assert_eq!(rt; row, after);
    }
    Ok(())
}

// What rewriting no bytes at all into a row answers, and the row afterwards: a refused file is rewritten as the file
// without gates.
const REFUSED: [(usize, Result<usize, RewriteFault>, [u8; 8]); 3] = [
    (5, Err(RewriteFault::Write(WriteFault::ShortRow)), [7; 8]),
    (6, Ok(6), [0, 0, 0, 0, 0, 0, 7, 7]),
    (8, Ok(6), [0, 0, 0, 0, 0, 0, 7, 7]),
];

#[test]
fn a_refused_file_is_rewritten_without_gates(rt: HostRuntime) {
    for (lent, answer, after) in REFUSED {
        let mut row = [7; 8];
        assert!(rt; lent <= 8);
        assert_eq!(rt; rewrite(rt.alloc(), &[], &mut row[..lent]), answer);
        assert_eq!(rt; row, after);
    }
}
