//! Whether two commands are the same.
ghost use Rattle.std.specs.Prelude.{◌≡◌, true};

use pid_ident::{Key, Path};
use pid_moderation::{Act, Command, Expected, Proposal};

fn is_same_text(one: &str, other: &str) -> bool
    ensures { result ≡ true → one.now ≡ other.now }
{
    one == other
}

fn is_same_path(one: Path, other: Path) -> bool
    ensures { result ≡ true → one ≡ other }
{
    let _parent = one.parent();
    let _other_parent = other.parent();
    one == other
}

fn is_same_key(one: &Option<Key>, other: &Option<Key>) -> bool
    ensures { result ≡ true → one.now ≡ other.now }
{
    match one {
        Some(key) => match other {
            Some(second) => is_same_text(key.as_str(), second.as_str()),
            None => false,
        },
        None => other.is_none(),
    }
}

fn is_same_proposal(one: &Proposal, other: &Proposal) -> bool
    ensures { result ≡ true → one.now ≡ other.now }
{
    match one {
        Proposal::Name(name) => match other {
            Proposal::Name(second) => is_same_text(name.as_str(), second.as_str()),
            Proposal::Removal => false,
        },
        Proposal::Removal => matches!(other, Proposal::Removal),
    }
}

fn is_same_expected(one: &Expected, other: &Expected) -> bool
    ensures { result ≡ true → one.now ≡ other.now }
{
    match one {
        Expected::Anything => matches!(other, Expected::Anything),
        Expected::Absent => matches!(other, Expected::Absent),
        Expected::Named(name) => {
            let Expected::Named(second) = other else {
                return false;
            };
            is_same_text(name.as_str(), second.as_str())
        }
    }
}

fn is_same_act(one: &Act, other: &Act) -> bool
    ensures { result ≡ true → one.now ≡ other.now }
{
    match one {
        Act::Account { who, rank } => {
            let Act::Account {
                who: second,
                rank: other_rank,
            } = other
            else {
                return false;
            };
            *rank == *other_rank && is_same_text(who.as_str(), second.as_str())
        }
        Act::Submit {
            path,
            proposal,
            note,
        } => {
            let Act::Submit {
                path: second,
                proposal: other_proposal,
                note: other_note,
            } = other
            else {
                return false;
            };
            is_same_path(*path, *second)
                && is_same_proposal(proposal, other_proposal)
                && is_same_text(note.as_str(), other_note.as_str())
        }
        Act::Comment { number, text } => {
            let Act::Comment {
                number: second,
                text: other_text,
            } = other
            else {
                return false;
            };
            *number == *second && is_same_text(text.as_str(), other_text.as_str())
        }
        Act::Withdraw { number } => {
            let Act::Withdraw { number: second } = other else {
                return false;
            };
            *number == *second
        }
        Act::Approve { number, expected } => {
            let Act::Approve {
                number: second,
                expected: other_expected,
            } = other
            else {
                return false;
            };
            *number == *second && is_same_expected(expected, other_expected)
        }
        Act::Reject { number, reason } => {
            let Act::Reject {
                number: second,
                reason: other_reason,
            } = other
            else {
                return false;
            };
            *number == *second && is_same_text(reason.as_str(), other_reason.as_str())
        }
        Act::Import { file } => {
            let Act::Import { file: second } = other else {
                return false;
            };
            file.as_bytes() == second.as_bytes()
        }
    }
}

/// Whether two commands are the same, byte for byte.
pub fn is_same(one: &Command, other: &Command) -> bool
    ensures { result ≡ true → one.now ≡ other.now }
{
    is_same_text(one.account.as_str(), other.account.as_str())
        && is_same_key(&one.key, &other.key)
        && is_same_act(&one.act, &other.act)
}
