// The drawings that a test program runs on: standard input names them, a name to a line, and each is read from the file
// of that name in the working folder.
#![tactic(auto)]

use std::fs;
use std::rt::Files;

// What a test program says of a drawing.
pub trait Report {
    // The text to print for a drawing's bytes.
    fn report(&self, bytes: &[u8]) -> anyhow::Result<String>;
}

// Prints the name of each drawing and what is reported of its bytes.
pub fn each_drawing(
    rt: &(impl Input + Print + Files + AllocGlobal),
    reporter: &impl Report,
) -> anyhow::Result<()> {
    for line in rt.lines(rt.alloc()) {
        let name = line?;
        let path = format!(in rt.alloc(); "{name}.net")?;
        let bytes = fs::read(rt, path.as_str())?;
        let text = reporter.report(bytes.as_slice())?;
        println!(rt; "{name}")?;
        rt.print(text)?;
    }
    Ok(())
}
