//! A made load: payments between parties, drawn at random from a seed, so that a large run can be made again.
#![tactic(auto)]

mod maker;

pub use maker::{Maker, Payment};

#[cfg(test)]
mod tests;
