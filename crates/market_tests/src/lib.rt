// Tests of `units` and `market`: edges and refusals, and settlements run on examples.
#![tactic(auto)]

#[cfg(test)]
mod divisions;
#[cfg(test)]
mod makers;
#[cfg(test)]
mod payments;
#[cfg(test)]
mod refusals;
#[cfg(test)]
mod settlements;
