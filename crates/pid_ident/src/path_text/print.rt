//! The text of a path.
ghost use Rattle.std.specs.Prelude.{◌≡◌, ◌++◌, ◌∷◌, OnOk, string_bytes};
ghost use Rattle.std.specs.Str.{IsAscii};
ghost use Rattle.pid_file.specs.PathTexts.{front_of, parts_of, slashed};
ghost use Rattle.pid_file.specs.Identifiers.{hex4 as four_digits, hex2 as two_digits};

use pid_file::{Id8, Id16, Path, hex2, hex4};
use std::alloc::AllocError;

/// What the text begins with.
pub fn front(path: Path) -> &'static str
    ensures { result.now ≡ front_of path }
{
    match path {
        Path::Vendor { .. } | Path::Device { .. } | Path::Subsystem { .. } => "PC",
        Path::Class { .. } | Path::Subclass { .. } | Path::ProgIf { .. } => "PD",
        Path::Generic { .. } => "PS",
    }
}

/// Writes each part after a slash.
pub fn push_parts(text: &mut String, path: Path) -> Result<(), AllocError>
    ensures { OnOk result (string_bytes text.new
        ≡ string_bytes text.old ++ slashed (parts_of path)) }
{
    match path {
        Path::Vendor { vendor } => push_part4(text, vendor),
        Path::Device { vendor, device } | Path::Generic { vendor, device } => {
            push_part4(text, vendor)?;
            push_part4(text, device)
        }
        Path::Subsystem {
            vendor,
            device,
            subvendor,
            subdevice,
        } => {
            push_part4(text, vendor)?;
            push_part4(text, device)?;
            push_part4(text, subvendor)?;
            push_digits(text, &hex4(subdevice))
        }
        Path::Class { class } => push_part2(text, class),
        Path::Subclass { class, subclass } => {
            push_part2(text, class)?;
            push_part2(text, subclass)
        }
        Path::ProgIf {
            class,
            subclass,
            progif,
        } => {
            push_part2(text, class)?;
            push_part2(text, subclass)?;
            push_part2(text, progif)
        }
    }
}

fn push_part4(text: &mut String, number: Id16) -> Result<(), AllocError>
    ensures { OnOk result (string_bytes text.new
        ≡ string_bytes text.old ++ 47 ∷ four_digits number) }
{
    text.push('/')?;
    push_digits(text, &hex4(number))
}

fn push_part2(text: &mut String, number: Id8) -> Result<(), AllocError>
    ensures { OnOk result (string_bytes text.new
        ≡ string_bytes text.old ++ 47 ∷ two_digits number) }
{
    text.push('/')?;
    push_digits(text, &hex2(number))
}

fn push_digits(text: &mut String, digits: &[u8]) -> Result<(), AllocError>
    requires { IsAscii digits.now }
    ensures { OnOk result (string_bytes text.new ≡ string_bytes text.old ++ digits.now) }
{
    for digit in digits {
        text.push(char::from(*digit))?;
    }
    Ok(())
}
