// A wire from its driver, driven gate and count, by which a table shows it on part of a line: a table is a constant, in
// which no function can be called.
use wiring::wire::Wire;

pub(crate) fn wire((driver, driven, count): (u16, u16, u32)) -> Wire {
    Wire {
        driver,
        driven,
        count,
    }
}
