//! The tests of the top call, and of the readers and writers that it takes.
#![tactic(auto)]

#[cfg(test)]
mod runs;
