// Tests of the sharing rules at their edges, and of questions as text.
#![tactic(auto)]

#[cfg(test)]
mod edges;
#[cfg(test)]
mod texts;
