//! The tests of the crates below the queue: plain data, the outside, texts, messages and their pool, fates, frames and sources.
#![tactic(auto)]

#[cfg(test)]
mod frames;
#[cfg(test)]
mod histories;
#[cfg(test)]
mod lists;
#[cfg(test)]
mod messages;
#[cfg(test)]
mod numbers;
#[cfg(test)]
mod outside;
#[cfg(test)]
mod pools;
#[cfg(test)]
mod sources;
