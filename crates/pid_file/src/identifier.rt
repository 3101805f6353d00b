//! Identifiers and their digits.
ghost use Rattle.std.specs.Prelude.{◌≡◌, ◌<◌};
ghost use Rattle.std.specs.Char.{digit_char};
ghost use Rattle.pid_file.specs.Identifiers.{hex4 as four_digits, hex2 as two_digits};

/// A vendor, a device, or half of a subsystem.
pub type Id16 = u16;

/// A class, a subclass, or a programming interface.
pub type Id8 = u8;

/// The bytes of `%04x`.
pub fn hex4(number: Id16) -> [u8; 4]
    ensures { result ≡ four_digits number }
{
    [
        hex_digit(number / 4096 % 16),
        hex_digit(number / 256 % 16),
        hex_digit(number / 16 % 16),
        hex_digit(number % 16),
    ]
}

/// The bytes of `%02x`.
pub fn hex2(number: Id8) -> [u8; 2]
    ensures { result ≡ two_digits number }
{
    [
        hex_digit(number as u16 / 16 % 16),
        hex_digit(number as u16 % 16),
    ]
}

fn hex_digit(value: u16) -> u8
    requires { value < 16 }
    ensures { result ≡ digit_char value }
{
    if value < 10 {
        b'0' + value as u8
    } else {
        b'a' - 10 + value as u8
    }
}
