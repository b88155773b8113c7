//! Tests that cross the crates, and the link that they use.
#![tactic(auto)]

#[cfg(test)]
mod outside;
pub mod rough;
#[cfg(test)]
mod rows;
#[cfg(test)]
mod sections;
#[cfg(test)]
mod tests;
