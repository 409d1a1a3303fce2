// Small nets: two to five gates, one to seven wires.
ghost use Rattle.std.specs.Prelude.{◌≤◌, length};

use engine::link::Link;
use random::Random;
use std::alloc::{AllocError, Global};

// Which wires of one driver share their registers.
#[derive(Clone, Copy)]
pub(crate) enum Rule {
    All,
    Alone,
    Mixed,
}

// Lists side by side, as the engine is lent them.
#[derive(Drop)]
pub(crate) struct Net {
    pub(crate) links: Vec<Link>,
    pub(crate) fixed: Vec<bool>,
    pub(crate) lags: Vec<i32>,
}

impl Net {
    // A net with lags under which no count is below 0.
    pub(crate) fn random(heap: Global, random: &mut Random, rule: Rule) -> Result<Net, AllocError> {
        let gates = 2 + random.below(4);
        let wires = 1 + random.below(7);
        let mut fixed = Vec::new(heap);
        let mut lags = Vec::new(heap);
        // One `for`, since the draws of the two rows alternate.
        for _ in 0..gates {
            fixed.push(random.below(3) == 0)?;
            lags.push(i32::from(random.below(3)) - 1)?;
        }
        let links = (0..wires)
            .map(|k| random_link(random, rule, gates, lags.as_slice(), k))
            .collect(heap)?;
        Ok(Net { links, fixed, lags })
    }

    // Whether a gate is one of the net's, and may move.
    pub(crate) fn is_free(&self, gate: usize) -> bool {
        !self.fixed.get(gate).copied().unwrap_or(true)
    }

    // The count of a wire under the net's lags.
    pub(crate) fn count(&self, link: &Link) -> i32 {
        count(link, self.lags.as_slice())
    }

    // The registers needed under the net's lags. None where a count is below 0.
    pub(crate) fn needed(&self) -> Option<u64> {
        self.tally(self.lags.as_slice())
    }

    // The registers needed under lags: for each bundle the greatest count. None where a count is below 0.
    pub(crate) fn tally(&self, lags: &[i32]) -> Option<u64> {
        // An array, since this is the search's inner loop, which then allocates nothing. Each bundle is below 16.
        let mut tops = [0u32; 16];
        for link in self.links.iter() {
            let registers = u32::try_from(count(link, lags)).ok()?;
            if let Some(top) = tops.get_mut(usize::from(link.bundle)) {
                *top = registers.max(*top);
            }
        }
        Some(total(&tops))
    }
}

// A wire between gates below the number of gates.
fn random_link(random: &mut Random, rule: Rule, gates: u16, lags: &[i32], k: u16) -> Link {
    let driver = random.below(gates);
    let driven = random.below(gates);
    let lacking = lag_of(lags, usize::from(driver)).saturating_sub(lag_of(
        lags,
        usize::from(driven),
    ));
    let count = u32::from(random.below(4)).max(u32::try_from(lacking).unwrap_or(0));
    Link {
        driver,
        driven,
        count,
        bundle: bundle(random, rule, driver, k),
    }
}

fn total(tops: &[u32]) -> u64
    requires few { length tops.now ≤ 16 }
{
    tops.iter().map(|top| u64::from(*top)).sum()
}

// The bundle of a wire, below 16; the wires of a bundle have one driver.
fn bundle(random: &mut Random, rule: Rule, driver: u16, k: u16) -> u16 {
    match rule {
        Rule::All => driver,
        Rule::Alone => k,
        // Twice the driver, or one more: by a shift and a bit, which cannot overflow.
        Rule::Mixed => (driver << 1) | random.below(2),
    }
}

pub(crate) fn lag_of(lags: &[i32], gate: usize) -> i32 {
    lags.get(gate).copied().unwrap_or(0)
}

// The count of a wire under lags.
fn count(link: &Link, lags: &[i32]) -> i32 {
    i32::try_from(link.count)
        .unwrap_or(i32::MAX)
        .saturating_add(lag_of(lags, usize::from(link.driven)))
        .saturating_sub(lag_of(lags, usize::from(link.driver)))
}
