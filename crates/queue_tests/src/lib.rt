//! The tests of a queue as one thread has it.
#![tactic(auto)]

#[cfg(test)]
mod examples;
#[cfg(test)]
mod rows;
