//! Tests of trees, readers and look-ups as other programs call them, and of readers, writers and
//! holders of names that fail. They call public functions alone.
#![tactic(auto)]

#[cfg(test)]
mod lookups;
#[cfg(test)]
mod reading;
#[cfg(test)]
mod streams;
#[cfg(test)]
mod texts;
#[cfg(test)]
mod trees;
