// Reads a drawing from standard input and prints its listing.
#![tactic(auto)]

use anyhow::Context;
use listing::lines::refused;
use listing::run::run;
use std::io::Read;
use std::process::ExitCode;

// One byte more than the longest drawing: a longer input is refused without reading it to its end.
const MOST_BYTES: u64 = 24_583;

fn main(rt: HostRuntime) -> anyhow::Result<ExitCode> {
    let heap = rt.alloc();
    let mut bytes = Vec::new(heap);
    rt.stdin().take(MOST_BYTES).read_to_end(&mut bytes)?;
    match run(heap, bytes.as_slice()) {
        Ok(text) => {
            rt.print(text)?;
            Ok(ExitCode::SUCCESS)
        }
        Err(fault) => {
            let refusal = fault.refusal().context("out of memory")?;
            rt.print(refused(heap, refusal.number)?)?;
            Ok(ExitCode::FAILURE)
        }
    }
}
