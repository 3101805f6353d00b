//! Texts in one allocation, cut to a buffer.
ghost use Rattle.std.specs.Prelude.{◌≡◌, ◌++◌, ◌-◌, ◌^◌, min, length, take, IfOk, OnOk};
ghost use Rattle.std.specs.List.{flat_map};
ghost use Rattle.pid_lookup.specs.Cut.{cut as cut_text};

use std::alloc::{AllocError, Global};

/// The text of the parts, as a buffer of `size` bytes with room for a 0 byte at its end would hold
/// it.
pub fn cut(alloc: Global, parts: &[&[u8]], size: u32) -> Result<Vec<u8>, AllocError>
    ensures { IfOk result (λ text. text.items
        ≡ cut_text (flat_map (λ part. part.now) parts.now) size) }
{
    let size = size as usize;
    let length = total_length(parts);
    if length < size {
        let mut text = Vec::with_capacity(alloc, length)?;
        push_front(&mut text, parts, length)?;
        return Ok(text);
    }
    if size < 4 {
        return Vec::from_slice(alloc, b"<pci_lookup_name: buffer too small>");
    }
    let mut text = Vec::with_capacity(alloc, size - 1)?;
    push_front(&mut text, parts, size - 4)?;
    text.extend_from_slice(b"...")?;
    Ok(text)
}

// The length of the parts together, up to the greatest number.
fn total_length(parts: &[&[u8]]) -> usize
    ensures { result ≡ min (length (flat_map (λ part. part.now) parts.now)) (2 ^ 64 - 1) }
{
    let mut total = 0usize;
    for part in parts {
        total = total.saturating_add(part.len());
    }
    total
}

// Pushes the first bytes of the parts, at most `limit`.
fn push_front(text: &mut Vec<u8>, parts: &[&[u8]], limit: usize) -> Result<(), AllocError>
    ensures { OnOk result (text.new.items
        ≡ text.old.items ++ take limit (flat_map (λ part. part.now) parts.now)) }
{
    let mut room = limit;
    for part in parts {
        let (front, _) = part.split_at(room.min(part.len()));
        text.extend_from_slice(front)?;
        room -= front.len();
    }
    Ok(())
}
