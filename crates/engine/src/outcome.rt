// What one round came to.
#[derive(Drop)]
pub(crate) enum Outcome {
    // No gate that may move has a surplus to move.
    Settled,
    // One unit was carried from a gate with a surplus to one that takes it.
    Carried,
    // No gate that takes a surplus can be reached: the marks are 1 for those that can.
    Stuck([u8; 1024]),
}
