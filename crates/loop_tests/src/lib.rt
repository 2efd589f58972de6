//! The tests of the crates over a shared queue: turns, handlers, loopers, choreographers, ready forms and an inbox.
#![tactic(auto)]

#[cfg(test)]
mod choreographers;
#[cfg(test)]
mod handlers;
#[cfg(test)]
mod idle;
#[cfg(test)]
mod inboxes;
#[cfg(test)]
mod loopers;
#[cfg(test)]
mod turns;
#[cfg(test)]
mod values;
#[cfg(test)]
mod while_handling;
