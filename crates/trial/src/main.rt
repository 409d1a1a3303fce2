// Compares the engine with exhaustive search on some thousands of small nets, and prints on how many they agree.
#![tactic(auto)]

mod exhaust;
mod net;
mod witness;

use engine::calls::{decide, fewest};
use exhaust::{Found, Moves};
use net::{Net, Rule};
use random::Random;
use retiming::way::Way;
use std::alloc::Global;
use witness::Rows;

const NETS: u32 = 3000;

fn main(rt: HostRuntime) -> anyhow::Result<()> {
    let heap = rt.alloc();
    try_all(&rt, "forward", |net| agrees(heap, &net, Way::Forward))?;
    try_all(&rt, "back", |net| agrees(heap, &net, Way::Back))?;
    try_all(&rt, "decide", |net| decides(heap, &net))?;
    try_all(
        &rt,
        "no fewer after forward and back",
        |net| certifies(heap, net),
    )
}

// Tests one thing on each of the nets, which are the same at each call, and prints on how many it holds.
fn try_all<F: Fn(Net) -> anyhow::Result<bool>>(
    rt: &(impl Print + AllocGlobal),
    name: &str,
    holds: F,
) -> anyhow::Result<()>
    requires { F.IsAlwaysCallable holds }
{
    let mut random = Random { state: 20_261_118 };
    let mut agreed = 0u32;
    for k in 0..NETS {
        let net = Net::random(rt.alloc(), &mut random, rule_of(k))?;
        agreed = agreed.saturating_add(u32::from(holds(net)?));
    }
    println!(rt; "{name}: {agreed} of {NETS} agree")?;
    Ok(())
}

fn rule_of(k: u32) -> Rule {
    match k % 3 {
        0 => Rule::All,
        1 => Rule::Alone,
        _ => Rule::Mixed,
    }
}

// The lags that the engine leaves one way, and the registers needed before and after.
#[derive(Drop)]
struct Moved {
    lags: Vec<i32>,
    before: u64,
    after: u64,
}

fn move_lags(heap: Global, net: &Net, way: Way) -> anyhow::Result<Moved> {
    let mut lags = net.lags.as_slice().to_vec(heap)?;
    let (before, after) = fewest(
        way,
        net.fixed.len(),
        net.links.as_slice(),
        net.fixed.as_slice(),
        lags.as_mut_slice(),
    )?;
    Ok(Moved {
        lags,
        before,
        after,
    })
}

// Whether the engine leaves, one way, the fewest registers and the nearest lags of a box that holds its own answer.
fn agrees(heap: Global, net: &Net, way: Way) -> anyhow::Result<bool> {
    let moved = move_lags(heap, net, way)?;
    let depth = farthest(net.lags.as_slice(), moved.lags.as_slice());
    let found = Moves::one_way(way, depth.max(3).saturating_add(1)).search(net);
    Ok(
        net.needed() == Some(moved.before)
            && found.tally == moved.after
            && is_nearest(net, way, moved.lags.as_slice(), &found),
    )
}

// The greatest distance between two lags of a gate.
fn farthest(from: &[i32], to: &[i32]) -> u32 {
    from.iter()
        .zip(to.iter())
        .map(|(a, b)| a.abs_diff(*b))
        .max()
        .unwrap_or(0)
}

// Whether each lag is as far from the net's, one way, as was found.
fn is_nearest(net: &Net, way: Way, lags: &[i32], found: &Found) -> bool {
    net.lags
        .iter()
        .zip(lags.iter())
        .zip(found.nearest.iter())
        .all(|((from, to), nearest)| u32::try_from(distance(way, *from, *to)) == Ok(*nearest))
}

// How far it is from a lag to another, one way.
fn distance(way: Way, from: i32, to: i32) -> i32 {
    match way {
        Way::Forward => from.saturating_sub(to),
        Way::Back => to.saturating_sub(from),
    }
}

// What the engine decides, with the rows that it leaves.
struct Decided {
    answer: bool,
    rows: Rows,
}

const UNWRITTEN: Rows = Rows {
    shares: [9; 8],
    flows: [9; 8],
};

fn decide_net(net: &Net) -> anyhow::Result<Decided> {
    let mut rows = UNWRITTEN;
    let answer = decide(
        net.fixed.len(),
        net.links.as_slice(),
        net.fixed.as_slice(),
        net.lags.as_slice(),
        &mut rows.shares,
        &mut rows.flows,
    )?;
    Ok(Decided { answer, rows })
}

// Whether the engine decides as the box of lags within four of the present ones says. Where it says that some lags
// need fewer and the box has none, forward or back must find some.
fn decides(heap: Global, net: &Net) -> anyhow::Result<bool> {
    let Decided { answer, rows } = decide_net(net)?;
    if answer {
        return Ok(is_least(net) && rows.is_witness(net));
    }
    Ok(
        rows == UNWRITTEN
            && (!is_least(net)
                || finds_fewer(heap, net, Way::Forward)?
                || finds_fewer(heap, net, Way::Back)?),
    )
}

fn is_least(net: &Net) -> bool {
    net.needed() == Some(Moves::both_ways().search(net).tally)
}

fn finds_fewer(heap: Global, net: &Net, way: Way) -> anyhow::Result<bool> {
    let moved = move_lags(heap, net, way)?;
    Ok(moved.after < moved.before)
}

// Whether, of the net that forward and then back have moved, the engine says that no lags need fewer, with a witness, and
// no lags within four of the net's do.
fn certifies(heap: Global, net: Net) -> anyhow::Result<bool> {
    let net = with_lags_moved(heap, net, Way::Forward)?;
    let net = with_lags_moved(heap, net, Way::Back)?;
    let Decided { answer, rows } = decide_net(&net)?;
    Ok(answer && is_least(&net) && rows.is_witness(&net))
}

// The net with the lags that the engine leaves one way.
fn with_lags_moved(heap: Global, net: Net, way: Way) -> anyhow::Result<Net> {
    let Moved { lags, .. } = move_lags(heap, &net, way)?;
    Ok(Net { lags, ..net })
}
