// Small examples beside the answers that they must get.
#![tactic(auto)]

#[cfg(test)]
mod drawings;
#[cfg(test)]
mod files;
#[cfg(test)]
mod interleaves;
#[cfg(test)]
mod lists;
#[cfg(test)]
mod reported;
#[cfg(test)]
mod retimings;
#[cfg(test)]
mod wires;
