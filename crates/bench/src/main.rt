// Times the engine, forward and then back, on shapes of full size. The registers needed go to standard output, the
// times to standard error.
#![tactic(auto)]

mod shape;

use engine::calls::fewest;
use retiming::way::Way;
use shape::{GATES, Shape};
use std::rt::Clock;
use std::time::Instant;

fn main(rt: HostRuntime) -> anyhow::Result<()> {
    let heap = rt.alloc();
    time(&rt, &shape::chain(heap)?)?;
    time(&rt, &shape::random(heap, "random, 1 to 255", 255)?)?;
    time(&rt, &shape::random(heap, "random, 1 to 3", 3)?)?;
    time(&rt, &shape::downhill(heap)?)?;
    time(&rt, &shape::grid(heap)?)?;
    time(&rt, &shape::hub(heap)?)?;
    time(&rt, &shape::tree(heap)?)?;
    time(&rt, &shape::parallel(heap)?)?;
    time(&rt, &shape::joined(heap)?)?;
    time(&rt, &shape::ring(heap)?)?;
    time(&rt, &shape::layers(heap)?)?;
    time(&rt, &shape::alone(heap)?)
}

fn time(rt: &(impl Print + Eprint + Clock + AllocGlobal), shape: &Shape) -> anyhow::Result<()> {
    let name = shape.name;
    let links = shape.links.as_slice();
    let fixed: Vec<bool> = (0..GATES)
        .map(|gate| gate < shape.fixed)
        .collect(rt.alloc())?;
    let mut lags = [0i32; GATES];
    let start = Instant::now(rt)?;
    let (before, between) = fewest(Way::Forward, GATES, links, fixed.as_slice(), &mut lags)?;
    let (_, after) = fewest(Way::Back, GATES, links, fixed.as_slice(), &mut lags)?;
    let micros = start.elapsed(rt)?.as_micros();
    let wires = links.len();
    println!(rt; "{name}: {wires} wires, registers {before} {between} {after}")?;
    eprintln!(rt; "{name}: {micros} us")?;
    Ok(())
}
