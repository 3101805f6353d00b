//! Tests of the registry, of scripts and HTTP over it, and of its journal: by public calls alone,
//! over memory, where a disk, a reader or a writer fails.
#![tactic(auto)]

#[cfg(test)]
mod journal;
#[cfg(test)]
mod script;
#[cfg(test)]
mod service;
pub mod serving;
