//! What the arguments ask the program to do.

/// What the program is asked to do. Texts are as they were given. A journal is a folder.
#[derive(Clone, Copy)]
pub enum Job<'a> {
    Tidy,
    Check,
    Lookup(LookupArgs<'a>),
    /// On a registry in memory, if no file is named.
    Script {
        db: Option<&'a str>,
        journal: Option<&'a str>,
    },
    Import(ImportArgs<'a>),
    Export {
        db: &'a str,
    },
    Serve(ServeArgs<'a>),
    Migrate {
        db: &'a str,
    },
}

impl<'a> Job<'a> {
    /// The folder of the journal, if the arguments name one.
    pub fn journal(self) -> Option<&'a str> {
        match self {
            Job::Script { journal, .. } => journal,
            Job::Import(words) => words.journal,
            Job::Serve(words) => words.journal,
            Job::Tidy | Job::Check | Job::Lookup(_) => None,
            Job::Export { .. } | Job::Migrate { .. } => None,
        }
    }
}

/// The file and the values of a lookup. The values are not checked yet.
#[derive(Clone, Copy)]
pub struct LookupArgs<'a> {
    pub ids: &'a str,
    pub flags: &'a str,
    pub size: Option<&'a str>,
    pub vendor: Option<&'a str>,
    pub device: Option<&'a str>,
    pub subvendor: Option<&'a str>,
    pub subdevice: Option<&'a str>,
    pub class: Option<&'a str>,
    pub progif: Option<&'a str>,
}

/// The registry and the file of an import, and who sends it. Whether the account and the key keep
/// their rules is not checked yet.
#[derive(Clone, Copy)]
pub struct ImportArgs<'a> {
    pub db: &'a str,
    pub journal: Option<&'a str>,
    pub account: &'a str,
    pub key: Option<&'a str>,
    pub ids: &'a str,
}

/// The registry that is served, the port that clients connect to, and the number of connections to
/// serve, one after the other. The port is 1 to 65,535, the number 1 to 1,000,000.
#[derive(Clone, Copy)]
pub struct ServeArgs<'a> {
    pub db: &'a str,
    pub journal: Option<&'a str>,
    pub port: u16,
    pub connections: u32,
}
