//! The path of a text.
ghost use Rattle.std.specs.Prelude.{◌≡◌, ◌+◌, ◌^◌, ◌<◌};
ghost use Rattle.pid_ident.specs.PathReading.{
  digit_at as value_at,
  two_at as two_digits_at,
  four_at as four_digits_at,
};
ghost use Rattle.pid_ident.specs.Steps.Shapes.{
  fits,
  fits_mark as is_marked,
  device_path as device_of,
  class_path as class_of,
  generic_path as generic_of,
};

use pid_file::{Id8, Id16, Path};

/// The path of a vendor or of what is below one whose text it is.
pub fn device_path(text: &[u8]) -> Option<Path>
    ensures { result ≡ device_of text.now }
{
    if has_shape(text, b"PC/####") {
        return Some(Path::Vendor {
            vendor: four_at(text, 3),
        });
    }
    if has_shape(text, b"PC/####/####") {
        return Some(Path::Device {
            vendor: four_at(text, 3),
            device: four_at(text, 8),
        });
    }
    if has_shape(text, b"PC/####/####/########") {
        return Some(Path::Subsystem {
            vendor: four_at(text, 3),
            device: four_at(text, 8),
            subvendor: four_at(text, 13),
            subdevice: four_at(text, 17),
        });
    }
    None
}

/// The path of a class or of what is below one whose text it is.
pub fn class_path(text: &[u8]) -> Option<Path>
    ensures { result ≡ class_of text.now }
{
    if has_shape(text, b"PD/##") {
        return Some(Path::Class {
            class: two_at(text, 3),
        });
    }
    if has_shape(text, b"PD/##/##") {
        return Some(Path::Subclass {
            class: two_at(text, 3),
            subclass: two_at(text, 6),
        });
    }
    if has_shape(text, b"PD/##/##/##") {
        return Some(Path::ProgIf {
            class: two_at(text, 3),
            subclass: two_at(text, 6),
            progif: two_at(text, 9),
        });
    }
    None
}

/// The path of a generic subsystem whose text it is.
pub fn generic_path(text: &[u8]) -> Option<Path>
    ensures { result ≡ generic_of text.now }
{
    if has_shape(text, b"PS/####/####") {
        return Some(Path::Generic {
            vendor: four_at(text, 3),
            device: four_at(text, 8),
        });
    }
    None
}

// Whether a text has a shape, in which `#` stands for a lower-case hex digit.
fn has_shape(text: &[u8], shape: &[u8]) -> bool
    ensures { result ≡ fits text.now shape.now }
{
    let mut rest = text;
    let mut marks = shape;
    while let [mark, others @ ..] = marks {
        let [byte, behind @ ..] = rest else {
            return false;
        };
        if !fits_mark(*byte, *mark) {
            return false;
        }
        rest = behind;
        marks = others;
    }
    rest.is_empty()
}

fn fits_mark(byte: u8, mark: u8) -> bool
    ensures { result ≡ is_marked byte mark }
{
    if mark == b'#' {
        (byte >= b'0' && byte <= b'9') || (byte >= b'a' && byte <= b'f')
    } else {
        byte == mark
    }
}

// The number of the four digits at a place.
fn four_at(text: &[u8], place: usize) -> Id16
    requires { place < 2 ^ 16 }
    ensures { result ≡ four_digits_at place text.now }
{
    two_at(text, place) as u16 * 256 + two_at(text, place + 2) as u16
}

// The number of the two digits at a place.
fn two_at(text: &[u8], place: usize) -> Id8
    requires { place < 2 ^ 17 }
    ensures { result ≡ two_digits_at place text.now }
{
    digit_at(text, place) * 16 + digit_at(text, place + 1)
}

// The value of the digit at a place; 0 past the end.
fn digit_at(text: &[u8], place: usize) -> u8
    ensures value { result ≡ value_at place text.now }
    ensures small { result < 16 }
{
    match text.get(place) {
        Some(byte) if *byte <= b'9' => byte.saturating_sub(b'0') % 16,
        Some(byte) => byte.saturating_sub(b'a' - 10) % 16,
        None => 0,
    }
}
