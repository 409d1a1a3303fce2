// What the check reads off a file.
use arrayvec::ArrayVec;
use wiring::wire::Wire;

// The three sizes at the head of a file.
#[derive(Clone, Copy)]
pub(crate) struct Sizes {
    pub(crate) gates: usize,
    pub(crate) pins: usize,
    pub(crate) wires: usize,
}

// The gates, the pins and the wires of a file. The check takes no allocator, so the wires stand in a vector of
// fixed capacity.
#[derive(Drop)]
pub(crate) struct Parsed {
    pub(crate) gates: usize,
    pub(crate) pins: usize,
    pub(crate) wires: ArrayVec<Wire, 4096>,
}
