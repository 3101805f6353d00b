//! Ranks of accounts.
ghost use Rattle.std.specs.Prelude.{◌≡◌};
ghost use Rattle.pid_moderation.specs.Ranks.{needed_rank as rank_for};

use pid_ident::Path;

/// What an account may do.
#[derive(Clone, Copy, PartialEq, Eq)]
pub enum Rank {
    /// Submits, comments, and withdraws what it submitted.
    Contributor,
    /// Decides on names of devices, subsystems, subclasses, programming interfaces and generic
    /// subsystems too.
    Moderator,
    /// Decides on names of vendors and classes and on removals too, and imports files.
    Senior,
    /// Sets the ranks of other accounts too.
    Administrator,
}

impl Rank {
    ghost use Rattle.pid_moderation.specs.Ranks.{rank_number};

    /// 0 to 3, the higher ranks by the greater numbers.
    pub fn number(self) -> u8
        ensures { result ≡ rank_number self }
    {
        match self {
            Rank::Contributor => 0,
            Rank::Moderator => 1,
            Rank::Senior => 2,
            Rank::Administrator => 3,
        }
    }
}

/// The rank that approves or rejects a proposal for the path: a removal, or a name.
pub fn needed_rank(path: &Path, removal: bool) -> Rank
    ensures { result ≡ rank_for path.now removal }
{
    if removal {
        return Rank::Senior;
    }
    match path {
        Path::Vendor { .. } | Path::Class { .. } => Rank::Senior,
        Path::Device { .. }
        | Path::Subsystem { .. }
        | Path::Subclass { .. }
        | Path::ProgIf { .. }
        | Path::Generic { .. } => Rank::Moderator,
    }
}
