// Runs of the month book on examples.
#![tactic(auto)]

#[cfg(test)]
mod compensations;
#[cfg(test)]
mod edges;
#[cfg(test)]
mod months;
#[cfg(test)]
mod order;
#[cfg(test)]
mod refusals;
#[cfg(test)]
mod setup;
#[cfg(test)]
mod transfers;
