// The rules of a witness, tested one by one.
ghost use Rattle.std.specs.Prelude.{◌≤◌, length};

use crate::net::Net;
use engine::link::Link;

// The shares and the flows of the wires of a net, of which there are at most eight: arrays, as a constant needs them.
#[derive(Clone, Copy, PartialEq)]
pub(crate) struct Rows {
    pub(crate) shares: [u16; 8],
    pub(crate) flows: [u16; 8],
}

impl Rows {
    // Whether the rows show that no permitted lags need fewer registers than the net's.
    pub(crate) fn is_witness(&self, net: &Net) -> bool {
        net.links
            .iter()
            .zip(self.shares.iter())
            .zip(self.flows.iter())
            .all(|((link, share), flow)| {
                self.has_one_share(net, link)
                    && (*share == 0 || is_deepest(net, link))
                    && (*flow == 0 || *flow <= 4096 && net.count(link) == 0)
            })
            && net
                .fixed
                .iter()
                .enumerate()
                .all(|(gate, fixed)| *fixed || self.surplus(net, gate) == 0)
    }

    // Whether the shares in the bundle of a wire are one 1 and else 0.
    fn has_one_share(&self, net: &Net, link: &Link) -> bool {
        sum_at(&self.shares, net, |other| is_bundled(link, other)) == 1
    }

    // Shares in less shares out, less flow in, plus flow out.
    fn surplus(&self, net: &Net, gate: usize) -> i64 {
        let shares_in = sum_at(&self.shares, net, |link| usize::from(link.driven) == gate);
        let shares_out = sum_at(&self.shares, net, |link| usize::from(link.driver) == gate);
        let flow_in = sum_at(&self.flows, net, |link| usize::from(link.driven) == gate);
        let flow_out = sum_at(&self.flows, net, |link| usize::from(link.driver) == gate);
        i64::from(shares_in) - i64::from(shares_out) - i64::from(flow_in) + i64::from(flow_out)
    }
}

// The sum of a row over the wires that a test picks.
fn sum_at<F: Fn(&Link) -> bool>(row: &[u16], net: &Net, picks: F) -> u32
    requires few { length row.now ≤ 8 }
    requires safe { (f : _) (x : _) → F.pre f x }
{
    row.iter()
        .zip(net.links.iter())
        .filter(|(_, link)| picks(link))
        .map(|(entry, _)| u32::from(*entry))
        .sum()
}

fn is_bundled(a: &Link, b: &Link) -> bool {
    a.driver == b.driver && a.bundle == b.bundle
}

// Whether no wire of the bundle has a greater count than this one.
fn is_deepest(net: &Net, link: &Link) -> bool {
    net.links
        .iter()
        .filter(|other| is_bundled(link, other))
        .all(|other| net.count(other) <= net.count(link))
}
