//! Why a journal was not put in front of a registry.
use pid_moderation::Refusal;
use thiserror::Error;

/// Why a journal was not put in front of a registry.
#[derive(Clone, Copy, Debug, Error)]
pub enum OpenFault {
    /// Memory ran out, the registry has failed, its store or the file of the journal failed, or a
    /// command in that file lacks its comment. Lines may have been obeyed; another opening goes on
    /// after them.
    #[error("{0}")]
    Refused(Refusal),
    /// The journal is that of another registry: what it says was held where this registry stands
    /// is not what this registry holds.
    #[error("the journal is that of another registry")]
    Another,
    /// The registry has obeyed commands that the journal has not. After the last segment that is no
    /// fault: the journal goes on after a gap.
    #[error("the registry is newer than the journal")]
    Newer,
    /// The journal lacks commands between the registry and a later segment. Lines before them may
    /// have been obeyed.
    #[error("the journal lacks commands that the registry does not have")]
    Missing,
}
