// One wire as it stands in a list: nothing is checked yet.
ghost use Rattle.std.specs.Prelude.{◌≡◌, ◌<◌, ◌≤◌, ◌==◌, false, length, slice_index_or};
ghost use Rattle.wiring.specs.Wires.{no_wire};

#[derive(Clone, Copy, PartialEq, Eq, Debug, Default)]
pub struct Wire {
    pub driver: u16,
    pub driven: u16,
    pub count: u32,
}

impl Wire {
    // What a netlist is told of it: its driver, driven gate and count.
    pub(crate) fn to_tuple(&self) -> (usize, usize, u32)
        ensures { result ≡ (self.now.driver, self.now.driven, self.now.count) }
    {
        (self.driver as usize, self.driven as usize, self.count)
    }

    // What a graph is told of it: its ends, and whether it is open, with the count 0.
    pub(crate) fn to_arc(&self) -> (usize, usize, bool)
        ensures { result ≡ (self.now.driver, self.now.driven, self.now.count == 0) }
    {
        (self.driver as usize, self.driven as usize, self.count == 0)
    }
}

// Wire k of a list, as a netlist is told of it; past the last, three zeros.
pub(crate) fn wire_at(wires: &[Wire], k: usize) -> (usize, usize, u32)
    ensures { let wire = slice_index_or wires.now k no_wire in result ≡ (wire.driver, wire.driven, wire.count) }
{
    wires.get(k).map_or((0, 0, 0), Wire::to_tuple)
}

// Wire k of a list, as a graph is told of it; past the last, an arc that is shut.
pub(crate) fn arc_at(wires: &[Wire], k: usize) -> (usize, usize, bool)
    ensures within { let wire = slice_index_or wires.now k no_wire in k < length wires.now → result ≡ (wire.driver, wire.driven, wire.count == 0) }
    ensures past { length wires.now ≤ k → result ≡ (0, 0, false) }
{
    wires.get(k).map_or((0, 0, false), Wire::to_arc)
}
