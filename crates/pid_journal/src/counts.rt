//! What a registry held before a command, as the comment above its line says it.
ghost use Rattle.std.specs.Prelude.{◌≡◌, ◌==◌, IfOk, MatchOption, false, slice_index, true};
ghost use Rattle.std.specs.Str.{is_utf8};
ghost use Rattle.pid_form.specs.FormFields.{bytes_of};
ghost use Rattle.pid_journal.specs.Journals.{
  count_at as count_in,
  counts_in_fields as counts_by,
  counts_said as said_in,
};

use pid_form::{fields_of, number_up_to, value};
use std::alloc::{AllocError, Global};

/// The revision of a registry, and how many accounts, items and submissions it has.
#[derive(Clone, Copy, PartialEq, Eq)]
pub struct Counts {
    pub revision: u64,
    pub accounts: u64,
    pub items: u64,
    pub submissions: u64,
}

fn count_at(fields: &[(String, String)], name: &str) -> Option<u64>
    ensures { result ≡ count_in name.now (bytes_of fields.now) }
{
    let text = value(fields, name)?;
    if text == "0" {
        Some(0)
    } else {
        number_up_to(text, u64::MAX, 20)
    }
}

fn counts_in_fields(fields: &[(String, String)]) -> Option<Counts>
    ensures { result ≡ counts_by (bytes_of fields.now) }
{
    let revision = count_at(fields, "revision")?;
    let accounts = count_at(fields, "accounts")?;
    let items = count_at(fields, "items")?;
    let submissions = count_at(fields, "submissions")?;
    Some(Counts {
        revision,
        accounts,
        items,
        submissions,
    })
}

// The text, if the bytes are UTF-8.
fn text_of(bytes: &[u8]) -> Option<&str>
    ensures { MatchOption result (is_utf8 bytes.now ≡ false)
        (λ text. (text.now ≡ bytes.now) × (is_utf8 bytes.now ≡ true)) }
{
    str::from_utf8(bytes).ok()
}

fn is_comment(line: &[u8]) -> bool
    ensures { result ≡ (slice_index line.now 0 == 35) }
{
    matches!(line, [b'#', ..])
}

/// What a line says that the registry holds, if it is a comment that says it.
pub fn counts_said(alloc: Global, line: &[u8]) -> Result<Option<Counts>, AllocError>
    ensures { IfOk result (λ counts. counts ≡ said_in line.now) }
{
    if !is_comment(line) {
        return Ok(None);
    }
    let Some(form) = text_of(line) else {
        return Ok(None);
    };
    let fields = fields_of(alloc, form)?;
    Ok(counts_in_fields(&fields))
}
