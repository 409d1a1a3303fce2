// From the bytes of a drawing to its listing.
ghost use Rattle.std.specs.Prelude.{string_bytes, MatchResult};
ghost use Rattle.listing.specs.Run.{Listed, Refused};

use crate::fault::RunFault;
use crate::lines::describe;
use drawing::file::{check, open};
use std::alloc::Global;

// Checks a drawing and lists it.
pub fn run(heap: Global, bytes: &[u8]) -> Result<String, RunFault>
    ensures { MatchResult result (λ text. Listed bytes.now (string_bytes text)) (Refused bytes.now) }
{
    check(bytes)?;
    let net = open(heap, bytes)?;
    Ok(describe(heap, &net)?)
}
