//! The paths that a look-up can ask for.
ghost use Rattle.std.specs.Prelude.{◌≡◌};
ghost use Rattle.pid_lookup.specs.Steps.AskedNames.{asked_paths as paths_asked};

use crate::args::{Args, class_byte, subclass_byte};
use pid_ident::Path;

/// The paths that a look-up with these arguments can ask for, whatever its flags.
pub fn asked_paths(args: &Args) -> [Path; 8]
    ensures { result ≡ paths_asked args.now }
{
    let Args {
        vendor,
        device,
        subvendor,
        subdevice,
        progif,
        ..
    } = *args;
    let class = class_byte(args);
    let subclass = subclass_byte(args);
    [
        Path::Vendor { vendor },
        Path::Vendor { vendor: subvendor },
        Path::Device { vendor, device },
        Path::Subsystem {
            vendor,
            device,
            subvendor,
            subdevice,
        },
        Path::Generic {
            vendor: subvendor,
            device: subdevice,
        },
        Path::Class { class },
        Path::Subclass { class, subclass },
        Path::ProgIf {
            class,
            subclass,
            progif,
        },
    ]
}
