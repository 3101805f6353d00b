//! The jobs of the program, over any machine, any registry under moderation, any input and any
//! output: sessions from opening to end, and the lines and the statuses with which they end. What a
//! job can ask of a machine, and the machine of the process; a registry with its journal in front.
#![tactic(auto)]

mod folder;
mod host;
mod host_files;
mod host_names;
mod imports;
mod job_end;
mod journaling;
mod journals;
mod lines;
mod lock;
mod lookups;
mod machine;
mod named_file;
mod registries;
mod scripts;
mod segment;
mod serving;
mod unopened;

pub use folder::HostFolder;
pub use host::Host;
pub use host_files::{DatabaseFiles, HostFiles};
pub use imports::import;
pub use job_end::{JobEnd, print_line, report_end};
pub use journaling::Journaling;
pub use journals::ReportingFolder;
pub use lookups::answer_lookup;
pub use machine::{Databases, InMemory, Machine};
pub use named_file::{FileNames, NamedFile};
pub use registries::Registries;
pub use scripts::script;
pub use segment::HostSegment;
pub use serving::serve;
pub use unopened::{Unopened, report_unopened};
