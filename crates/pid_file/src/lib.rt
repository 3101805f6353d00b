//! A file of PCI identifiers: its bytes, its entries, its tree, and its canonical text.
//!
//! This is all that the first program does: `tidy`, `check`, and to print a page. What it says of
//! its arguments is in `pid_cli_help`, code that only a registry needs in other crates. `pid_ident`,
//! `pid_tree` and `pid_reader` hand this crate on to those above.
#![tactic(auto)]

mod bytes;
mod checking;
mod counter;
mod entry_line;
mod fault_kind;
mod first_output;
mod identifier;
mod input_text;
mod io;
mod line;
mod lines_read;
mod name;
mod open_levels;
mod open_text;
mod path;
mod pieces;
mod plain;
mod print;
mod process;
mod refusal;
mod report;
mod seen;
mod seen_paths;
mod sink;
mod text_end;
mod tidying;
mod tree;
mod tree_sink;
mod watched;
mod whole;
mod whole_input;
mod writing;

pub use bytes::{are_printed, is_empty};
pub use checking::check;
pub use counter::{Counter, Never};
pub use fault_kind::LineKind;
pub use first_output::{report_no_words, show};
pub use identifier::{Id8, Id16, hex2, hex4};
pub use input_text::{count_input, end_without_fault, read_input};
pub use io::{Input, Output, ReadFault, WriteFault};
pub use line::without_cr;
pub use name::{Name, is_name};
pub use open_levels::{LineContent, OpenLevels, read_line};
pub use open_text::OpenText;
pub use path::Path;
pub use pieces::split_line;
pub use plain::Plain;
pub use print::{
    opened_block, write_after, write_block, write_canonical, write_header, write_item,
};
pub use process::{FAILED, NO_JOB, report_failed, report_text_end, run_check, run_tidy};
pub use refusal::ReadRefusal;
pub use report::report_unread;
pub use sink::{CutEnd, Entry, Sink};
pub use text_end::{LARGEST, TextEnd, end_of};
pub use tidying::tidy;
pub use tree::Tree;
pub use tree_sink::{TreeFault, TreeSink};
pub use watched::Watched;
pub use whole_input::{BUFFER, InputEnd, SkipEnd, cut_input, next_piece};
pub use writing::{write_all, write_parts};
