// A netlist written as the file of a drawing: sizes, ends and counts as 16-bit numbers, low byte first.
ghost use Rattle.std.specs.Prelude.{◌+◌, ◌*◌, ◌<◌, ◌≤◌, length, MatchResult};
ghost use Rattle.output.specs.Numbers.{Small, KeptFrom, Puts, HoldsSizes, PutsWires};
ghost use Rattle.output.specs.Rewritten.{Rewrites};
ghost use Rattle.output.specs.Written.{IsLeading, PinsFirst, IsLatePin, Writes};

use crate::fault::{RewriteFault, WriteFault};
use drawing::file;
use netlist::ask::Netlist;
use std::alloc::Global;
use wiring::told::deep_wire;
use wiring::wire::Wire;

// How many gates stand before the first that is not pinned.
fn leading_pins<N: Netlist>(net: &N) -> usize
    ensures { IsLeading (N.meaning net.now) result }
{
    let gates = net.gate_count();
    (0..gates).find(|g| !net.is_pinned(*g)).unwrap_or(gates)
}

// How many gates are pinned, where no unpinned gate stands below a pinned one.
fn pin_number<N: Netlist>(net: &N) -> Result<usize, WriteFault>
    ensures { MatchResult result (PinsFirst (N.meaning net.now)) (IsLatePin (N.meaning net.now)) }
{
    let pins = leading_pins(net);
    match (pins..net.gate_count()).find(|g| net.is_pinned(*g)) {
        Some(gate) => Err(WriteFault::LatePin(gate)),
        None => Ok(pins),
    }
}

// Number j of a row of bytes becomes the value, low byte first. By its place: of bytes that are written through
// `chunks_exact_mut` a proof knows only how many they are.
fn put_number(bytes: &mut [u8], j: usize, value: u16)
    requires { 2 * j + 1 < length bytes.old }
    ensures { Puts bytes.old bytes.new j value }
{
    let place = 2 * j;
    bytes[place..place + 2].copy_from_slice(&value.to_le_bytes());
}

// The three sizes, into the front of the row.
fn put_sizes<N: Netlist>(net: &N, pins: usize, bytes: &mut [u8])
    requires pinned { pins ≤ (N.meaning net.now).gates }
    requires room { 6 ≤ length bytes.old }
    ensures sizes { HoldsSizes (N.meaning net.now) pins bytes.new }
    ensures kept { KeptFrom 6 bytes.old bytes.new }
{
    put_number(bytes, 0, net.gate_count() as u16);
    put_number(bytes, 1, pins as u16);
    put_number(bytes, 2, net.wire_count() as u16);
}

// The ends of each wire behind the sizes, and the count of each wire behind all ends.
#[tactic(auto, using(crate::proofs::Putting::wire_put))]
fn put_wires<N: Netlist>(net: &N, bytes: &mut [u8])
    requires small { Small (N.meaning net.now) }
    requires room { 6 + 6 * (N.meaning net.now).wires ≤ length bytes.old }
    ensures { PutsWires (N.meaning net.now) (N.meaning net.now).wires bytes.old bytes.new }
{
    let wires = net.wire_count();
    for k in 0..wires {
        let wire = Wire::of(net, k);
        put_number(bytes, 3 + 2 * k, wire.driver);
        put_number(bytes, 4 + 2 * k, wire.driven);
        put_number(bytes, 3 + 2 * wires + k, wire.count as u16);
    }
}

// Writes a netlist as a file into the front of a row of bytes and answers the file's length; later bytes stay as they are.
pub fn write<N: Netlist>(net: &N, bytes: &mut [u8]) -> Result<usize, WriteFault>
    ensures { Writes (N.meaning net.now) bytes.old bytes.new result }
{
    let size = 6 + 6 * net.wire_count();
    if bytes.len() < size {
        return Err(WriteFault::ShortRow);
    }
    if let Some(k) = deep_wire(net, 255) {
        return Err(WriteFault::CountTooLarge(k));
    }
    let pins = pin_number(net)?;
    put_sizes(net, pins, bytes);
    put_wires(net, bytes);
    Ok(size)
}

// Opens a file and writes the opened netlist again. A file that its check accepts comes out byte for byte.
#[tactic(auto, using(crate::proofs::Rewriting::rewritten))]
pub fn rewrite(heap: Global, bytes: &[u8], out: &mut [u8]) -> Result<usize, RewriteFault>
    ensures { Rewrites bytes.now out.old out.new result }
{
    let net = file::open(heap, bytes)?;
    let size = write(&net, out)?;
    Ok(size)
}
