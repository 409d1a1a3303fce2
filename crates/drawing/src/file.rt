// A drawing as a file: its check, and its opening as a netlist in memory.
ghost use Rattle.std.specs.Prelude.{◌≡◌, ℕ, ◌<◌, ◌≤◌, [], length, drop, min, IfOk, MatchResult, slice_index_or};
ghost use Rattle.arrayvec.specs.ArrayVec.{array_vec_len};
ghost use Rattle.drawing.specs.File.{Accepts, Refuses, Opened};
ghost use Rattle.drawing.specs.Parsed.{SizesOf, wire_from, ParsedFrom};
ghost use Rattle.wiring.specs.Wires.{no_wire};
ghost use Rattle.wiring.specs.Wiring.{wiring_net};

use crate::parsed::{Parsed, Sizes};
use arrayvec::ArrayVec;
use std::alloc::{AllocError, Global};
use wiring::check::check_up_to;
use wiring::fault::CheckFault;
use wiring::list;
use wiring::owned::Wiring;
use wiring::wire::Wire;

// The three sizes, within their limits, and the bytes of as many wires.
fn read_sizes(bytes: &[u8]) -> Result<(Sizes, &[u8]), CheckFault>
    ensures { MatchResult result (λ s. SizesOf bytes.now s.0 × (s.1.now ≡ drop 6 bytes.now)) (Refuses bytes.now) }
{
    let [g0, g1, p0, p1, w0, w1, rest @ ..] = bytes else {
        return Err(CheckFault::ShortFile);
    };
    let gates = u16::from_le_bytes([*g0, *g1]) as usize;
    let pins = u16::from_le_bytes([*p0, *p1]) as usize;
    let wires = u16::from_le_bytes([*w0, *w1]) as usize;
    if gates > 1024 || wires > 4096 || pins > gates {
        return Err(CheckFault::TooLarge);
    }
    if rest.len() != 6 * wires {
        return Err(CheckFault::WrongLength);
    }
    Ok((Sizes { gates, pins, wires }, rest))
}

// A wire from the bytes of its two ends and those of its count.
fn read_wire(ends: [u8; 4], count: [u8; 2]) -> Wire
    ensures { result ≡ wire_from ends count }
{
    let [u0, u1, v0, v1] = ends;
    Wire {
        driver: u16::from_le_bytes([u0, u1]),
        driven: u16::from_le_bytes([v0, v1]),
        count: u32::from(u16::from_le_bytes(count)),
    }
}

// The wires from the bytes of their ends and those of their counts.
fn read_wires(ends: &[[u8; 4]], counts: &[[u8; 2]]) -> ArrayVec<Wire, 4096>
    requires { length ends.now ≤ 4096 }
    ensures long { array_vec_len result ≡ min (length ends.now) (length counts.now) }
    ensures each { (k : ℕ) → k < array_vec_len result → slice_index_or result.items k no_wire ≡ wire_from (slice_index_or ends.now k []) (slice_index_or counts.now k []) }
{
    let mut wires = ArrayVec::new();
    for (ends, count) in ends.iter().zip(counts) {
        wires.push(read_wire(*ends, *count));
    }
    wires
}

// What an accepted file says.
fn parse(bytes: &[u8]) -> Result<Parsed, CheckFault>
    ensures { MatchResult result (ParsedFrom bytes.now) (Refuses bytes.now) }
{
    let (sizes, rest) = read_sizes(bytes)?;
    let (front, back) = rest.split_at(4 * sizes.wires);
    let (ends, _) = front.as_chunks::<4>();
    let (counts, _) = back.as_chunks::<2>();
    let wires = read_wires(ends, counts);
    let Sizes { gates, pins, .. } = sizes;
    check_up_to(255, gates, pins, wires.as_slice())?;
    Ok(Parsed { gates, pins, wires })
}

// Checks a file completely. It leaves nothing to opening, which checks again.
pub fn check(bytes: &[u8]) -> Result<(), CheckFault>
    ensures { MatchResult result (λ _. Accepts bytes.now) (Refuses bytes.now) }
{
    parse(bytes)?;
    Ok(())
}

// Opens a file as a netlist. It never refuses: what the check refuses opens as the netlist without gates.
pub fn open(heap: Global, bytes: &[u8]) -> Result<Wiring, AllocError>
    ensures { IfOk result (λ w. Opened bytes.now (wiring_net w)) }
{
    match parse(bytes) {
        Ok(parsed) => list::open(heap, parsed.gates, parsed.pins, parsed.wires.as_slice()),
        Err(_) => Ok(Wiring::empty(heap)),
    }
}
