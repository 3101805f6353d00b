//! The columns of a line: its identifiers and its name.
ghost use Rattle.std.specs.Prelude.{
  ◌≡◌,
  ◌<◌,
  true,
  false,
  None,
  Some,
  map,
  take,
  drop,
};
ghost use Rattle.std.specs.Prelude.{MatchOption, MatchResult, IfOk, IfErr, IsTrue};
ghost use Rattle.std.specs.Char.{to_ascii_lowercase, digit_char};
ghost use Rattle.pid_file.specs.Identifiers.{hex4, hex2};
ghost use Rattle.pid_file.specs.Words.{is_name as name_test};
ghost use Rattle.pid_file.specs.Marks.{trim_blanks as trimmed};
ghost use Rattle.pid_file.specs.Columns.{
  begins_with_id,
  begins_with_ids,
  digits_in,
  is_hex,
  is_id,
  name_in,
};
ghost use Rattle.pid_file.specs.Steps.Columns.{are_digits, SaysNumber, IsId};
ghost use Rattle.pid_file.specs.Steps.EntryLines.{name_fault, columns_fault, widths_of, IsPathAt};
ghost use Rattle.pid_file.specs.Steps.EntryLines.{bound_of, digits_of, AreIds};

use crate::bytes::is_empty;
use crate::fault_kind::LineKind;
use crate::identifier::{Id8, Id16};
use crate::line::trim_blanks;
use crate::name::is_name;
use crate::path::Path;

/// What a line names, except for its own digits.
#[derive(Clone, Copy)]
pub enum EntryKind {
    Vendor,
    Device { vendor: Id16 },
    Subsystem { vendor: Id16, device: Id16 },
    Class,
    Subclass { class: Id8 },
    ProgIf { class: Id8, subclass: Id8 },
    Generic { vendor: Id16 },
}

/// What an entry's line says.
#[derive(Clone, Copy)]
pub struct NamedPath<'a> {
    pub path: Path,
    pub name: &'a str,
    pub ghost named: { IsTrue (name_test name.now) },
}

// The value of a hex digit in either case.
fn hex_value(digit: u8) -> Option<u16>
    ensures { MatchOption result (is_hex digit ≡ false)
        (λ v. (v < 16) × (to_ascii_lowercase digit ≡ digit_char v) × (is_hex digit ≡ true)) }
{
    match digit {
        b'0'..=b'9' => Some((digit - b'0') as u16),
        b'a'..=b'f' => Some((digit - b'a') as u16 + 10),
        b'A'..=b'F' => Some((digit - b'A') as u16 + 10),
        _ => None,
    }
}

// The number of the two digits that the bytes begin with, and what follows them.
fn pair_at(bytes: &[u8]) -> Option<(u16, &[u8])>
    ensures { MatchOption result (are_digits 2 bytes.now ≡ false)
        (λ x. SaysNumber 2 256 hex2 bytes.now x.0 x.1.now) }
{
    let [high, low, behind @ ..] = bytes else {
        return None;
    };
    let high = hex_value(*high)?;
    let low = hex_value(*low)?;
    Some((high * 16 + low, behind))
}

// The number of the four digits that the bytes begin with, and what follows them.
fn four_at(bytes: &[u8]) -> Option<(Id16, &[u8])>
    ensures { MatchOption result (are_digits 4 bytes.now ≡ false)
        (λ x. SaysNumber 4 65536 hex4 bytes.now x.0 x.1.now) }
{
    let (high, behind) = pair_at(bytes)?;
    let (low, behind) = pair_at(behind)?;
    Some((high * 256 + low, behind))
}

// What follows the blank that the bytes begin with.
fn after_blank(bytes: &[u8]) -> Option<&[u8]>
    ensures { MatchOption result (begins_with_id 0 bytes.now ≡ false)
        (λ rest. (begins_with_id 0 bytes.now ≡ true) × (rest.now ≡ drop 1 bytes.now)) }
{
    match bytes {
        [b' ' | b'\t', behind @ ..] => Some(behind),
        _ => None,
    }
}

// The number of four digits before a blank, and what follows that blank.
fn id4_at(bytes: &[u8]) -> Option<(Id16, &[u8])>
    ensures { MatchOption result (begins_with_id 4 bytes.now ≡ false)
        (λ x. IsId 4 65536 hex4 bytes.now x.0 x.1.now) }
{
    let (number, behind) = four_at(bytes)?;
    let behind = after_blank(behind)?;
    Some((number, behind))
}

// The number of two digits before a blank, and what follows that blank.
fn id2_at(bytes: &[u8]) -> Option<(Id16, &[u8])>
    ensures { MatchOption result (begins_with_id 2 bytes.now ≡ false)
        (λ x. IsId 2 256 hex2 bytes.now x.0 x.1.now) }
{
    let (number, behind) = pair_at(bytes)?;
    let behind = after_blank(behind)?;
    Some((number, behind))
}

/// The number of four digits before blanks alone.
pub fn vendor_of_block(bytes: &[u8]) -> Option<Id16>
    ensures { MatchOption result (is_id 4 bytes.now ≡ false) (λ v. (is_id 4 bytes.now ≡ true)
        × (map to_ascii_lowercase (take 4 bytes.now) ≡ hex4 v)) }
{
    let (vendor, behind) = four_at(bytes)?;
    if !is_empty(trim_blanks(behind)) {
        return None;
    }
    Some(vendor)
}

// The name after the identifiers.
fn name_at(bytes: &[u8]) -> Result<&str, LineKind>
    ensures name { IfOk result (λ name. name.now ≡ trimmed bytes.now) }
    ensures good { IfOk result (λ name. IsTrue (name_test name.now)) }
    ensures fault { MatchResult result (λ _. name_fault (trimmed bytes.now) ≡ None)
        (λ kind. name_fault (trimmed bytes.now) ≡ Some kind) }
{
    let name = trim_blanks(bytes);
    if name.is_empty() {
        return Err(LineKind::NoName);
    }
    let Ok(name) = str::from_utf8(name) else {
        return Err(LineKind::BadName);
    };
    if is_name(name) {
        Ok(name)
    } else {
        Err(LineKind::BadName)
    }
}

// The numbers of a place's own digits, with which the bytes begin, and what follows them. The second
// is 0 unless there are two.
fn ids_at(place: EntryKind, bytes: &[u8]) -> Option<(Id16, Id16, &[u8])>
    ensures { MatchOption result (begins_with_ids (widths_of place) bytes.now ≡ false)
        (λ x. AreIds place bytes.now x.0 x.1 x.2.now) }
{
    match place {
        EntryKind::Class | EntryKind::Subclass { .. } | EntryKind::ProgIf { .. } => {
            let (id, behind) = id2_at(bytes)?;
            Some((id, 0, behind))
        }
        EntryKind::Subsystem { .. } => {
            let (subvendor, behind) = id4_at(bytes)?;
            let (subdevice, behind) = id4_at(behind)?;
            Some((subvendor, subdevice, behind))
        }
        EntryKind::Vendor | EntryKind::Device { .. } | EntryKind::Generic { .. } => {
            let (id, behind) = id4_at(bytes)?;
            Some((id, 0, behind))
        }
    }
}

// The path of a place with its own numbers.
fn path_of(place: EntryKind, first: Id16, second: Id16) -> Path
    requires { first < bound_of place }
    ensures { IsPathAt place result (digits_of place first second) }
{
    match place {
        EntryKind::Vendor => Path::Vendor { vendor: first },
        EntryKind::Device { vendor } => Path::Device {
            vendor,
            device: first,
        },
        EntryKind::Subsystem { vendor, device } => Path::Subsystem {
            vendor,
            device,
            subvendor: first,
            subdevice: second,
        },
        EntryKind::Class => Path::Class { class: first as u8 },
        EntryKind::Subclass { class } => Path::Subclass {
            class,
            subclass: first as u8,
        },
        EntryKind::ProgIf { class, subclass } => Path::ProgIf {
            class,
            subclass,
            progif: first as u8,
        },
        EntryKind::Generic { vendor } => Path::Generic {
            vendor,
            device: first,
        },
    }
}

/// What the columns of an entry's line say.
pub fn read_columns(place: EntryKind, bytes: &[u8]) -> Result<NamedPath<'_>, LineKind>
    ensures path { IfOk result (λ said. IsPathAt place said.path
        (digits_in (widths_of place) bytes.now)) }
    ensures name { IfOk result (λ said. said.name.now ≡ name_in (widths_of place) bytes.now) }
    ensures good { IfOk result (λ _. columns_fault (widths_of place) bytes.now ≡ None) }
    ensures fault { IfErr result (λ kind. columns_fault (widths_of place) bytes.now ≡ Some kind) }
{
    let Some((first, second, behind)) = ids_at(place, bytes) else {
        return Err(LineKind::BadId);
    };
    let name = name_at(behind)?;
    let path = path_of(place, first, second);
    Ok(NamedPath { path, name })
}
