// The check of a list of wires: ends, counts and rounds, each from the first wire to the last. By a rule of the
// project the records are looked at by a `for` over the lent list with its index, and their sizes come beside the list.
ghost use Rattle.std.specs.Prelude.{ℕ, ◌≤◌, Bool, length, MatchResult};
ghost use Rattle.wiring.specs.Check.{Finds, Stray, Deep, WiresPass, WiresFail};
ghost use Rattle.wiring.specs.List.{Passes, Fails};
ghost use Rattle.wiring.specs.Wires.{wired};

use crate::fault::CheckFault;
use crate::lent::Wires;
use crate::wire::Wire;

// The lowest wire of which an end is no gate.
fn stray_wire(gates: usize, wires: &[Wire]) -> Option<usize>
    ensures { (pinned : ℕ → Bool) → Finds (length wires.now) (Stray (wired gates pinned wires.now)) result }
{
    for (k, wire) in wires.iter().enumerate() {
        if wire.driver as usize >= gates || wire.driven as usize >= gates {
            return Some(k);
        }
    }
    None
}

// The lowest wire whose count is over the limit.
fn deep_wire(limit: u32, wires: &[Wire]) -> Option<usize>
    ensures { (gates : ℕ) (pinned : ℕ → Bool) → Finds (length wires.now) (Deep limit (wired gates pinned wires.now)) result }
{
    for (k, wire) in wires.iter().enumerate() {
        if wire.count > limit {
            return Some(k);
        }
    }
    None
}

// Checks the wires between so many gates, whichever of them are pinned.
fn check_wires(limit: u32, gates: usize, wires: &[Wire]) -> Result<(), CheckFault>
    requires few { gates ≤ 1024 }
    requires short { length wires.now ≤ 4096 }
    ensures { (pinned : ℕ → Bool) → MatchResult result (λ _. WiresPass limit (wired gates pinned wires.now)) (WiresFail limit (wired gates pinned wires.now)) }
{
    if let Some(k) = stray_wire(gates, wires) {
        return Err(CheckFault::NoGate(k));
    }
    if let Some(k) = deep_wire(limit, wires) {
        return Err(CheckFault::CountTooLarge(k));
    }
    let wires = Wires { gates, list: wires };
    match wires.round_wire() {
        Some(k) => Err(CheckFault::FreeRound(k)),
        None => Ok(()),
    }
}

// Checks a list of wires, with counts up to a limit, between so many gates of which so many are pinned.
pub fn check_up_to(limit: u32, gates: usize, pins: usize, wires: &[Wire]) -> Result<(), CheckFault>
    ensures { MatchResult result (λ _. Passes limit gates pins wires.now) (Fails limit gates pins wires.now) }
{
    if gates > 1024 || wires.len() > 4096 || pins > gates {
        return Err(CheckFault::TooLarge);
    }
    check_wires(limit, gates, wires)
}
