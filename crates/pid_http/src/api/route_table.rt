//! The table of routes: a path, the methods that it takes, and what each of them asks for.

use pid_moderation::Verb;

/// What a question is about.
#[derive(Clone, Copy)]
pub enum Topic {
    Whole(Whole),
    Read,
    Children,
    Lookup,
    Submission,
    Pages(Pages),
    Changes,
    Submissions,
    Rank,
    Remarks,
}

/// What is asked of a whole registry, without any value.
#[derive(Clone, Copy)]
pub enum Whole {
    /// The canonical text of all items.
    Export,
    /// How much it holds.
    Status,
}

/// Submissions by pages, each after a number.
#[derive(Clone, Copy)]
pub enum Pages {
    /// Those that are pending.
    Pending,
    /// The same as a moderator sees them.
    Queue,
}

/// What a body is.
#[derive(Clone, Copy)]
pub enum Payload {
    /// The fields of a command.
    Command(Verb),
    /// A file.
    Import,
}

/// A path, as a router reads it; the names of the fields that the query of a GET may have there, and
/// what it asks about; and what a POST sends, whose query may have a format alone.
pub type Route = (
    &'static str,
    &'static [&'static str],
    Option<Topic>,
    Option<Payload>,
);

/// All routes.
pub const ROUTES: &[Route] = &[
    ("/pci.ids", &[], Some(Topic::Whole(Whole::Export)), None),
    ("/read/{*path}", &["format"], Some(Topic::Read), None),
    ("/children", &["format", "of"], Some(Topic::Children), None),
    (
        "/lookup",
        &[
            "flags",
            "size",
            "vendor",
            "device",
            "subvendor",
            "subdevice",
            "class",
            "progif",
        ],
        Some(Topic::Lookup),
        None,
    ),
    (
        "/submission/{num}",
        &["format"],
        Some(Topic::Submission),
        None,
    ),
    (
        "/remarks",
        &["format", "num", "after"],
        Some(Topic::Remarks),
        None,
    ),
    (
        "/pending",
        &["format", "after"],
        Some(Topic::Pages(Pages::Pending)),
        None,
    ),
    (
        "/changes",
        &["format", "since", "after"],
        Some(Topic::Changes),
        None,
    ),
    (
        "/queue",
        &["format", "after"],
        Some(Topic::Pages(Pages::Queue)),
        None,
    ),
    (
        "/submissions",
        &["format", "path", "author", "before"],
        Some(Topic::Submissions),
        None,
    ),
    (
        "/status",
        &["format"],
        Some(Topic::Whole(Whole::Status)),
        None,
    ),
    (
        "/account",
        &["format", "who"],
        Some(Topic::Rank),
        Some(Payload::Command(Verb::Account)),
    ),
    ("/submit", &[], None, Some(Payload::Command(Verb::Submit))),
    ("/comment", &[], None, Some(Payload::Command(Verb::Comment))),
    (
        "/withdraw",
        &[],
        None,
        Some(Payload::Command(Verb::Withdraw)),
    ),
    ("/approve", &[], None, Some(Payload::Command(Verb::Approve))),
    ("/confirm", &[], None, Some(Payload::Command(Verb::Confirm))),
    ("/reject", &[], None, Some(Payload::Command(Verb::Reject))),
    ("/import", &[], None, Some(Payload::Import)),
];
