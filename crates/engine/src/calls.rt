// The engine's calls. They take any table and refuse what is not fit. Its parts come one by one, since the caller's lists
// may be anything: a `Table` is one that has been checked.
ghost use Rattle.std.specs.Prelude.{◌<◌, MatchResult};
ghost use Rattle.engine.specs.Calls.{Fewest, Refused, Decided, Undecided};

use crate::fault::TableFault;
use crate::link::Link;
use crate::table::Table;
use retiming::way::Way;

// Moves the lags one way to where the fewest registers are needed, as near as that can be had. Answers the registers
// needed before and after.
pub fn fewest(
    way: Way,
    gates: usize,
    links: &[Link],
    fixed: &[bool],
    lags: &mut [i32],
) -> Result<(u64, u64), TableFault>
    ensures { MatchResult result (λ t. Fewest way gates links.now fixed.now lags.old lags.new t.0 t.1) (Refused gates links.now fixed.now lags.old lags.new) }
{
    let table = Table::fit(gates, links, fixed, lags).ok_or(TableFault::Unfit)?;
    Ok(table.seek(way, lags))
}

// Decides, at unchanged lags, whether any permitted lags at all need fewer registers. If none do, it answers true and
// writes the witness: a share and a flow for each wire, into lent rows of 16-bit numbers by a rule of the project.
pub fn decide(
    gates: usize,
    links: &[Link],
    fixed: &[bool],
    lags: &[i32],
    shares: &mut [u16],
    flows: &mut [u16],
) -> Result<bool, TableFault>
    ensures { MatchResult result (λ b. Decided gates links.now fixed.now lags.now shares.old flows.old shares.new flows.new b) (Undecided gates links.now fixed.now lags.now shares.old flows.old shares.new flows.new) }
{
    let table = Table::fit(gates, links, fixed, lags).ok_or(TableFault::Unfit)?;
    if shares.len() < links.len() || flows.len() < links.len() {
        return Err(TableFault::ShortRow);
    }
    let Some(witness) = table.witness(lags) else {
        return Ok(false);
    };
    witness.write_shares(shares);
    witness.write_flows(flows);
    Ok(true)
}
