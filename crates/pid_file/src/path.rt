//! Paths of items: their parents and their order.
ghost use Rattle.std.specs.Prelude.{◌≡◌};
ghost use Rattle.pid_file.specs.PathTexts.{IsPath, parent_of};

mod order;

use crate::identifier::{Id8, Id16};
pub(crate) use order::key_of;

/// The place of an item: its vendor, device, subsystem, class, subclass, programming interface or
/// generic subsystem.
///
/// Paths are ordered as the bytes of their texts.
#[derive(Clone, Copy)]
pub enum Path {
    /// `PC/8086`
    Vendor {
        vendor: Id16,
    },
    /// `PC/8086/1237`
    Device {
        vendor: Id16,
        device: Id16,
    },
    /// `PC/8086/1237/1af41100`
    Subsystem {
        vendor: Id16,
        device: Id16,
        subvendor: Id16,
        subdevice: Id16,
    },
    /// `PD/01`
    Class {
        class: Id8,
    },
    /// `PD/01/01`
    Subclass {
        class: Id8,
        subclass: Id8,
    },
    /// `PD/01/01/80`
    ProgIf {
        class: Id8,
        subclass: Id8,
        progif: Id8,
    },
    /// `PS/1af4/1100`: a subsystem of a vendor under any device
    Generic {
        vendor: Id16,
        device: Id16,
    },
}

impl Path {
    /// The path of the item that this one belongs to: its text without the last part.
    /// A generic subsystem belongs to its vendor; a vendor and a class belong to none.
    pub fn parent(self) -> Option<Path>
        ensures parent { result ≡ parent_of self }
        ensures in_range { IsPath self }
    {
        match self {
            Path::Vendor { .. } | Path::Class { .. } => None,
            Path::Device { vendor, .. } | Path::Generic { vendor, .. } => {
                Some(Path::Vendor { vendor })
            }
            Path::Subsystem { vendor, device, .. } => Some(Path::Device { vendor, device }),
            Path::Subclass { class, .. } => Some(Path::Class { class }),
            Path::ProgIf {
                class,
                subclass,
                ..
            } => Some(Path::Subclass { class, subclass }),
        }
    }
}
