//! Tests of bytes that the rules of words share.
ghost use Rattle.std.specs.Prelude.{◌≡◌};
ghost use Rattle.std.specs.List.{list_all};
ghost use Rattle.pid_file.specs.Bytes.{
  is_printed as printed_byte,
  is_empty as no_bytes,
  begins_blank as blank_first,
};

/// Whether there is no byte.
pub fn is_empty(bytes: &[u8]) -> bool
    ensures { result ≡ no_bytes bytes.now }
{
    matches!(bytes, [])
}

/// Whether the first byte is a space or a tab.
pub fn begins_blank(bytes: &[u8]) -> bool
    ensures { result ≡ blank_first bytes.now }
{
    matches!(bytes, [b' ' | b'\t', ..])
}

/// Whether no byte is DEL or a control byte, except for tabs.
pub fn are_printed(bytes: &[u8]) -> bool
    ensures { result ≡ list_all printed_byte bytes.now }
{
    // Without an early end the compiler takes many bytes at a step.
    let mut all = true;
    for byte in bytes {
        all &= (*byte >= b' ' || *byte == b'\t') && *byte != 127;
    }
    all
}
