//! Readers of a text of PCI identifiers: entry by entry, whole, and in chunks.
#![tactic(auto)]

mod cutter;
mod feeder;
pub mod laws;
mod line_fault;
mod lines;
mod pieces;
mod skipping;
mod slice_input;

pub use cutter::Cutter;
pub use feeder::{Feeder, read_ids};
pub use line_fault::LineFault;
pub use lines::Lines;
pub use pid_file::{
    Counter, CutEnd, Entry, InputEnd, Never, ReadRefusal, Sink, SkipEnd, count_input, cut_input,
    read_input, split_line, without_cr,
};
pub use skipping::skip_input;
pub use slice_input::SliceInput;
