//! Lists: an array in JSON, or a line of text for each row.
ghost use Rattle.std.specs.Prelude.{◌≡◌, ◌++◌, false, map, string_bytes, IfOk, OnOk};
ghost use Rattle.std.specs.List.{flat_map};
ghost use Rattle.serde_json.specs.Data.{Data};
ghost use Rattle.serde_json.specs.View.{view};
ghost use Rattle.serde_json.specs.Written.{comma_if, compact_text, has_float};
ghost use Rattle.pid_http.specs.Api.Replying.{MakesReply, list_answer, rows_data};
ghost use Rattle.pid_http.specs.Steps.Replying.{answer_or};

use crate::api::Format;
use crate::api::outcome::refusal_reply;
use crate::api::reply::{printed, reply_with};
use crate::api::shown::Shown;
use http::StatusCode;
use pid_http_stream::{Content, HttpReply};
use pid_moderation::Refusal;
use serde_json::Value;
use std::alloc::{AllocError, Global};

/// The rows as an array.
pub(crate) fn rows_value<R: Shown>(alloc: Global, rows: &[R]) -> Result<Value, AllocError>
    ensures { IfOk result (λ value. view value ≡ rows_data R.json (map R.seen rows.now)) }
{
    let mut values = Vec::new(alloc);
    for row in rows {
        let value = row.value(alloc)?;
        values.push(value)?;
    }
    Ok(Value::Array(values))
}

/// Appends a value.
pub(crate) fn push_value(alloc: Global, text: &mut String, value: Value) -> Result<(), AllocError>
    ensures { (json : Data) → view value ≡ json → has_float json ≡ false
        → OnOk result (string_bytes text.new ≡ string_bytes text.old ++ compact_text json) }
{
    let printed = printed(alloc, value)?;
    text.push_str(printed.as_str())
}

// Appends a row, after a comma if `later` says that there is one before it.
fn push_row<R: Shown>(
    alloc: Global,
    text: &mut String,
    later: bool,
    row: &R,
) -> Result<(), AllocError>
    ensures { OnOk result (string_bytes text.new
        ≡ string_bytes text.old ++ comma_if later ++ compact_text (R.json (R.seen row.now))) }
{
    if later {
        text.push_str(",")?;
    }
    let value = row.value(alloc)?;
    push_value(alloc, text, value)
}

/// Appends the rows as an array, row by row.
pub(crate) fn push_rows<R: Shown>(
    alloc: Global,
    text: &mut String,
    rows: &[R],
) -> Result<(), AllocError>
    ensures { OnOk result (string_bytes text.new ≡ string_bytes text.old
        ++ compact_text (rows_data R.json (map R.seen rows.now))) }
{
    text.push_str("[")?;
    let mut later = false;
    for row in rows {
        push_row(alloc, text, later, row)?;
        later = true;
    }
    text.push_str("]")?;
    Ok(())
}

/// Appends the text of each row.
pub(crate) fn push_lines<R: Shown>(
    alloc: Global,
    text: &mut String,
    rows: &[R],
) -> Result<(), AllocError>
    ensures { OnOk result (string_bytes text.new
        ≡ string_bytes text.old ++ flat_map R.lines (map R.seen rows.now)) }
{
    for row in rows {
        row.push_text(alloc, text)?;
    }
    Ok(())
}

// The reply with the rows, in their order.
fn rows_reply<R: Shown>(alloc: Global, format: Format, rows: &[R]) -> Result<HttpReply, AllocError>
    ensures { MakesReply result (list_answer R.json R.lines format (map R.seen rows.now)) }
{
    let mut text = String::new(alloc);
    match format {
        Format::Json => {
            push_rows(alloc, &mut text, rows)?;
            Ok(reply_with(StatusCode::OK, Content::Json, text.into_bytes()))
        }
        Format::Text => {
            push_lines(alloc, &mut text, rows)?;
            Ok(reply_with(StatusCode::OK, Content::Text, text.into_bytes()))
        }
    }
}

/// The reply with the rows that were found, or with the refusal.
pub(crate) fn list_reply<R: Shown + Drop>(
    alloc: Global,
    format: Format,
    found: Result<Vec<R>, Refusal>,
) -> Result<HttpReply, AllocError>
    ensures { MakesReply result (answer_or format
        (λ rows. list_answer R.json R.lines format (map R.seen rows.items)) found) }
{
    match found {
        Ok(rows) => rows_reply(alloc, format, &rows),
        Err(refusal) => refusal_reply(alloc, format, refusal),
    }
}
