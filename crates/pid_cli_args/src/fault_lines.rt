//! Lines by which jobs report faults that are explained at a terminal: why no registry was opened,
//! as `Unopened` of `pid_cli_jobs` says, and that a port failed.

pub const OPEN_STORE: &str = "open: Store\n";

pub const OPEN_DAMAGED: &str = "open: Damaged\n";

pub const JOURNAL_ANOTHER: &str = "journal: Another\n";

pub const JOURNAL_MISSING: &str = "journal: Missing\n";

pub const JOURNAL_FAILED: &str = "journal: failed\n";

pub const SOCKET_FAILED: &str = "socket: failed\n";
