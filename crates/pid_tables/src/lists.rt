//! Lists of what the tables of a registry hold, each in its order.
pub(crate) mod adding;
mod changes;
mod children;
pub mod laws;
mod paths;
mod pending;
mod queue;
mod remarks;
mod submission;
pub(crate) mod submissions;
pub(crate) mod walk;

pub use walk::EachEnd;
