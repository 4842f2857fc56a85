// The stores, run on examples whose answers, lines and reports were worked out by hand. What the worked runs must give is
// proved of the plain store too (specs/Runs.antt of the crate `versions`); here the stores really run them.
#![tactic(auto)]

#[cfg(test)]
mod lines;
#[cfg(test)]
mod runs;
#[cfg(test)]
mod turns;
