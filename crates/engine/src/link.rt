// One wire of the engine's table: its ends, its count below, and the number of its bundle.
#[derive(Clone, Copy)]
pub struct Link {
    pub driver: u16,
    pub driven: u16,
    pub count: u32,
    pub bundle: u16,
}
