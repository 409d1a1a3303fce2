// Lists each drawing that standard input names, a name to a line, from the file of that name in the working folder, and
// says of each accepted one whether opening and writing give its bytes again.
#![tactic(auto)]

use anyhow::Context;
use drawings::{Report, each_drawing};
use listing::lines::refused;
use listing::run::run;
use output::fault::RewriteFault;
use output::file::rewrite;
use std::alloc::{AllocError, Global};

fn main(rt: HostRuntime) -> anyhow::Result<()> {
    each_drawing(&rt, &Listed { heap: rt.alloc() })
}

// Lists a drawing and says behind it, where it is accepted, whether it is rewritten byte for byte.
#[derive(Drop)]
struct Listed {
    heap: Global,
}

impl Report for Listed {
    fn report(&self, bytes: &[u8]) -> anyhow::Result<String> {
        let heap = self.heap;
        match run(heap, bytes) {
            Ok(text) => {
                let answer = rewritten(heap, bytes)?;
                Ok(format!(in heap; "{text}rewritten: {answer}\n")?)
            }
            Err(fault) => {
                let refusal = fault.refusal().context("out of memory")?;
                Ok(refused(heap, refusal.number)?)
            }
        }
    }
}

// Whether rewriting a drawing into a row three bytes longer gives the same bytes again and leaves those three.
fn rewritten(heap: Global, bytes: &[u8]) -> Result<&'static str, AllocError> {
    let mut expected = bytes.to_vec(heap)?;
    expected.extend_from_slice(&[7, 7, 7])?;
    let mut row = vec![in heap; 7; expected.len()]?;
    match rewrite(heap, bytes, row.as_mut_slice()) {
        Ok(size) if size == bytes.len() && row == expected => Ok("same"),
        Ok(_) | Err(RewriteFault::Write(_)) => Ok("other"),
        Err(RewriteFault::Memory) => Err(AllocError),
    }
}
