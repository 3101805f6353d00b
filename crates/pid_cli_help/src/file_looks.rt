//! What a file that is no text of pci.ids looks like.

/// What a file begins with that is no text, and what it looks like.
const LOOKS: [(&[u8], &str); 9] = [
    (
        b"\x1F\x8B",
        "is compressed by gzip: decompress it first, as zcat does",
    ),
    (
        b"\xFD7zXZ",
        "is compressed by xz: decompress it first, as xzcat does",
    ),
    (
        b"BZh",
        "is compressed by bzip2: decompress it first, as bzcat does",
    ),
    (
        b"\x28\xB5\x2F\xFD",
        "is compressed by zstd: decompress it first, as zstdcat does",
    ),
    (b"PK\x03\x04", "is a ZIP archive: unpack it first"),
    (b"\xFF\xFE", UTF_16),
    (b"\xFE\xFF", UTF_16),
    (
        b"\xEF\xBB\xBF",
        "begins with a byte order mark: save it as UTF-8 without one",
    ),
    (b"<", "looks like a page of the web: save the file itself"),
];

const UTF_16: &str = "looks like UTF-16: save it as UTF-8";

/// What a file looks like that begins with these bytes, if its first line is a fault for that.
pub fn looks_of(bytes: &[u8]) -> Option<&'static str> {
    // In UTF-16 one of the two bytes of a letter of ASCII is zero.
    if let [first, second, ..] = bytes {
        if *first == 0 || *second == 0 {
            return Some(UTF_16);
        }
    }
    for (begin, looks) in &LOOKS {
        if bytes.starts_with(begin) {
            return Some(*looks);
        }
    }
    None
}
