// Moves the registers of each drawing that standard input names, a name to a line, from the file of that name in the
// working folder: forward and then back under share-all with the pinned gates fixed. Prints for each drawing the
// registers needed before and after, and the lags other than 0.
#![tactic(auto)]

use drawing::file::open;
use drawings::{Report, each_drawing};
use engine::calls::fewest;
use engine::link::Link;
use netlist::ask::Netlist;
use retiming::way::Way;
use std::alloc::{AllocError, Global};
use wiring::owned::Wiring;
use wiring::wire::Wire;

fn main(rt: HostRuntime) -> anyhow::Result<()> {
    each_drawing(&rt, &Moved { heap: rt.alloc() })
}

// Says what moving a drawing's registers forward and then back comes to.
#[derive(Drop)]
struct Moved {
    heap: Global,
}

impl Report for Moved {
    fn report(&self, bytes: &[u8]) -> anyhow::Result<String> {
        let heap = self.heap;
        let net = open(heap, bytes)?;
        let links: Vec<Link> = (0..net.wire_count())
            .map(|k| link_of(&net, k))
            .collect(heap)?;
        let links = links.as_slice();
        let gates = net.gate_count();
        let pins: Vec<bool> = (0..gates).map(|gate| net.is_pinned(gate)).collect(heap)?;
        let pins = pins.as_slice();
        let mut lags = vec![in heap; 0i32; gates]?;
        let (before, _) = fewest(Way::Forward, gates, links, pins, lags.as_mut_slice())?;
        let (_, after) = fewest(Way::Back, gates, links, pins, lags.as_mut_slice())?;
        let moves = lag_lines(heap, lags.as_slice())?;
        Ok(format!(in heap; "regs {before} {after}\n{moves}")?)
    }
}

// One wire of the table: under share-all the bundle is the driver.
fn link_of(net: &Wiring, k: usize) -> Link {
    let Wire {
        driver,
        driven,
        count,
    } = Wire::of(net, k);
    Link {
        driver,
        driven,
        count,
        bundle: driver,
    }
}

// A line for each lag other than 0, gates rising.
fn lag_lines(heap: Global, lags: &[i32]) -> Result<String, AllocError> {
    let mut text = String::new(heap);
    for (gate, lag) in lags.iter().enumerate() {
        if *lag != 0 {
            writeln!(text, "lag {gate} {lag}")?;
        }
    }
    Ok(text)
}
