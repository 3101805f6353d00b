//! The members of an object in JSON, one at a time.
ghost use Rattle.std.specs.Prelude.{◌≡◌, ℕ, List, codes, IfOk};
ghost use Rattle.pid_ident.specs.PathTexts.{path_text};
ghost use Rattle.serde_json.specs.Data.{Data, Members, object, put as with_member, string};
ghost use Rattle.serde_json.specs.View.{members_view, view};

use pid_ident::{Path, PathText};
use serde_json::{Map, Value, put};
use std::alloc::{AllocError, Global};

/// The members of an object so far; or memory ran out for one of them. So what makes an object has
/// one exit.
pub(crate) type Made = Result<Map<String, Value>, AllocError>;

fn put_value(members: Map<String, Value>, alloc: Global, key: &str, value: Value) -> Made
    ensures { IfOk result (λ after. members_view after.entries
        ≡ with_member key.now (view value) (members_view members.entries)) }
{
    let mut members = members;
    put(&mut members, alloc, key, value)?;
    Ok(members)
}

/// The members, and this value at a key.
pub(crate) fn with_value(members: Made, alloc: Global, key: &str, value: Value) -> Made
    ensures { (ms : Members) (json : Data) → IfOk members (λ m. members_view m.entries ≡ ms)
        → view value ≡ json
        → IfOk result (λ m. members_view m.entries ≡ with_member key.now json ms) }
{
    match members {
        Ok(members) => put_value(members, alloc, key, value),
        // Not `?`: its value is not said to be that of `members`.
        Err(fault) => Err(fault),
    }
}

/// The members, and this text at a key.
pub(crate) fn with_text(members: Made, alloc: Global, key: &str, text: &str) -> Made
    ensures { (ms : Members) (word : List ℕ) → IfOk members (λ m. members_view m.entries ≡ ms)
        → text.now ≡ word
        → IfOk result (λ m. members_view m.entries ≡ with_member key.now (string word) ms) }
{
    let value = Value::try_from_str(alloc, text)?;
    with_value(members, alloc, key, value)
}

/// The members, and the text of a path.
pub(crate) fn with_path(members: Made, alloc: Global, path: &Path) -> Made
    ensures { (ms : Members) → IfOk members (λ m. members_view m.entries ≡ ms)
        → IfOk result (λ m. members_view m.entries
        ≡ with_member (codes "path") (string (path_text path.now)) ms) }
{
    let path = path.path_text(alloc)?;
    with_text(members, alloc, "path", path.as_str())
}

/// The object with these members.
pub(crate) fn object_of(members: Made) -> Result<Value, AllocError>
    ensures { (ms : Members) → IfOk members (λ m. members_view m.entries ≡ ms)
        → IfOk result (λ value. view value ≡ object ms) }
{
    match members {
        Ok(members) => Ok(Value::Object(members)),
        // Not `?`, as above.
        Err(fault) => Err(fault),
    }
}
