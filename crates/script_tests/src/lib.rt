//! The tests of the crates over scripts, reports, pictures and values.
#![tactic(auto)]

#[cfg(test)]
mod animators;
#[cfg(test)]
mod countdowns;
#[cfg(test)]
mod pictures;
#[cfg(test)]
mod plans;
#[cfg(test)]
mod reports;
#[cfg(test)]
mod scripts;
#[cfg(test)]
mod shown;
