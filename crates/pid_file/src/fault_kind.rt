//! What can be wrong with a line of `pci.ids`.
ghost use Rattle.std.specs.Prelude.{◌≡◌};

use std::fmt;

/// What is wrong with a line. Of several faults of one line the first of this order is reported.
#[derive(Clone, Copy, PartialEq, Eq)]
pub enum LineKind {
    /// The bytes are not UTF-8.
    NotUtf8,
    /// Too many tabs lead: three or more below a vendor or a class, two or more below the line of a
    /// block of generic subsystems.
    TooDeep,
    /// No line that it could belong to is open.
    NoParent,
    /// The hex digits, or the space or tab after them, are missing; or a block's line has more than
    /// blanks after its digits.
    BadId,
    /// Nothing follows the identifier and its blanks.
    NoName,
    /// The name is longer than 1,000 bytes, or holds a control byte that is no tab.
    BadName,
    /// An earlier entry has the same path.
    Duplicate,
    /// A block of generic subsystems of a vendor that no earlier entry names.
    VendorMissing,
}

impl LineKind {
    ghost use Rattle.pid_file.specs.LineKinds.{number_of, word_of};

    /// 1 to 8, in the order above.
    pub fn number(self) -> u8
        ensures { result ≡ number_of self }
    {
        match self {
            LineKind::NotUtf8 => 1,
            LineKind::TooDeep => 2,
            LineKind::NoParent => 3,
            LineKind::BadId => 4,
            LineKind::NoName => 5,
            LineKind::BadName => 6,
            LineKind::Duplicate => 7,
            LineKind::VendorMissing => 8,
        }
    }

    /// The name of the kind, as it is printed.
    pub fn word(self) -> &'static str
        ensures { result.now ≡ word_of self }
    {
        match self {
            LineKind::NotUtf8 => "NotUtf8",
            LineKind::TooDeep => "TooDeep",
            LineKind::NoParent => "NoParent",
            LineKind::BadId => "BadId",
            LineKind::NoName => "NoName",
            LineKind::BadName => "BadName",
            LineKind::Duplicate => "Duplicate",
            LineKind::VendorMissing => "VendorMissing",
        }
    }
}

// As a derived one, without an arm for each variant.
impl fmt::Debug for LineKind {
    fn fmt<W: fmt::Write>(&self, f: &mut fmt::Formatter<W>) -> fmt::Result {
        f.write_str(self.word())
    }
}
