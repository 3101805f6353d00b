//! The arguments of a look-up.
ghost use Rattle.std.specs.Prelude.{◌≡◌};
ghost use Rattle.pid_lookup.specs.Found.{class_byte as class_half, subclass_byte as subclass_half};

use pid_ident::{Id8, Id16};

/// The numbers that a look-up is about. A request reads those that concern it.
#[derive(Clone, Copy, Default)]
pub struct Args {
    pub vendor: Id16,
    pub device: Id16,
    pub subvendor: Id16,
    pub subdevice: Id16,
    /// The class in the high byte, the subclass in the low one.
    pub class: u16,
    pub progif: Id8,
}

/// The number of the class alone.
pub fn class_byte(args: &Args) -> u8
    ensures { result ≡ class_half args.now }
{
    (args.class / 256) as u8
}

/// The number of the subclass.
pub fn subclass_byte(args: &Args) -> u8
    ensures { result ≡ subclass_half args.now }
{
    (args.class % 256) as u8
}
