// The mathematics of retiming with the fewest registers, proved over netlists as values.
// The method is a certificate of shares and flows on the wires, after the linear program of Leiserson and Saxe, "Retiming synchronous circuitry".
#![tactic(auto)]

pub mod laws;
pub mod way;
