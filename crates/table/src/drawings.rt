// Small drawings beside the verdict that each must get.
use crate::reported::reported;
use drawing::file;
use std::alloc::{AllocError, Global};
use std::test::Fail;

// Each row: the numbers of a drawing (gates, pins, wires; the ends of each wire; the count of each), and its verdict: Ok,
// or the number and the place of the refusal.
const ROWS: [(&[u16], Result<(), (u16, usize)>); 16] = [
    // nothing drawn
    (&[0, 0, 0], Ok(())),
    // four gates, three of them pinned, with a register on each of two wires into the fourth
    (&[4, 3, 3, 0, 3, 1, 3, 3, 2, 1, 1, 0], Ok(())),
    // 1,024 and 1,025 gates
    (&[1024, 0, 0], Ok(())),
    (&[1025, 0, 0], Err((12, 0))),
    // as many pins as gates, and one more
    (&[2, 2, 0], Ok(())),
    (&[2, 3, 0], Err((12, 0))),
    // 4,097 wires, before the length is looked at
    (&[2, 0, 4097], Err((12, 0))),
    // a driver and a driven gate that are none, in the second wire
    (&[1, 0, 2, 0, 0, 1, 0, 1, 1], Err((14, 1))),
    (&[1, 0, 2, 0, 0, 0, 1, 1, 1], Err((14, 1))),
    // counts of 255 and 256; the wire's end comes before its count
    (&[1, 0, 1, 0, 0, 255], Ok(())),
    (&[1, 0, 1, 0, 0, 256], Err((15, 0))),
    (&[1, 0, 2, 0, 0, 0, 2, 256, 0], Err((14, 1))),
    // a gate that drives itself, with no register and with one
    (&[1, 0, 1, 0, 0, 0], Err((16, 0))),
    (&[1, 0, 1, 0, 0, 1], Ok(())),
    // a round of two wires behind one that is on none, without a register and with one
    (&[3, 0, 3, 2, 0, 0, 1, 1, 0, 0, 0, 0], Err((16, 1))),
    (&[3, 0, 3, 2, 0, 0, 1, 1, 0, 0, 0, 1], Ok(())),
];

// The same for drawings whose bytes do not pair up as numbers.
const ODD_ROWS: [(&[u8], Result<(), (u16, usize)>); 4] = [
    // too short for its sizes
    (&[], Err((11, 0))),
    (&[0, 0, 0, 0, 0], Err((11, 0))),
    // one byte too few and one too many
    (&[1, 0, 0, 0, 1, 0, 0, 0, 0, 0, 1], Err((13, 0))),
    (&[1, 0, 0, 0, 1, 0, 0, 0, 0, 0, 1, 0, 0], Err((13, 0))),
];

// The bytes of a file of these numbers: each low byte first.
fn bytes_of(heap: Global, numbers: &[u16]) -> Result<Vec<u8>, AllocError> {
    numbers
        .iter()
        .flat_map(|number| number.to_le_bytes())
        .collect(heap)
}

#[test]
fn each_drawing_gets_its_verdict(rt: HostRuntime) -> Result<(), Fail> {
    for (numbers, verdict) in ROWS {
        let bytes = bytes_of(rt.alloc(), numbers)?;
        assert_eq!(rt; reported(file::check(bytes.as_slice())), verdict);
    }
    Ok(())
}

#[test]
fn each_odd_drawing_gets_its_verdict(rt: HostRuntime) {
    for (bytes, verdict) in ODD_ROWS {
        assert_eq!(rt; reported(file::check(bytes)), verdict);
    }
}
