//! The number that a request shows.
ghost use Rattle.std.specs.Prelude.{◌≡◌};
ghost use Rattle.pid_file.specs.Identifiers.{hex4 as four_digits, hex2 as two_digits};
ghost use Rattle.pid_lookup.specs.Answers.{joined, request_number};

use crate::args::Args;
use crate::flags::Request;
use pid_ident::{hex2, hex4};
use std::marker::Model;

/// The digits of a number: `8086`, `8a` or `8086:1237`.
#[derive(Drop)]
pub struct Digits {
    bytes: [u8; 9],
    len: usize,
}

impl Model for Digits {
    ghost use Rattle.std.specs.Prelude.{ℕ, List, take, ◌≤◌};

    ghost Value = { List ℕ };

    ghost view = { λ digits. take digits.len digits.bytes };

    ghost invariant = { λ digits. digits.len ≤ 9 };
}

impl Digits {
    /// The number that a request shows.
    pub fn of(request: Request, args: &Args) -> Digits
        ensures { result ≡ request_number request args.now }
    {
        match request {
            Request::Vendor => Digits::four(args.vendor),
            Request::Device => Digits::four(args.device),
            Request::VendorAndDevice => Digits::pair(args.vendor, args.device),
            Request::Subvendor => Digits::four(args.subvendor),
            Request::Subsystem => Digits::four(args.subdevice),
            Request::SubvendorAndSubsystem => Digits::pair(args.subvendor, args.subdevice),
            Request::Class => Digits::four(args.class),
            Request::ProgIf => Digits::two(args.progif),
        }
    }

    /// The digits as text.
    pub fn as_bytes(&self) -> &[u8]
        ensures { result.now ≡ self.now }
    {
        let (front, _) = self.bytes.split_at(self.len);
        front
    }

    fn two(number: u8) -> Digits
        ensures { result ≡ two_digits number }
    {
        let [a, b] = hex2(number);
        Digits {
            bytes: [a, b, 0, 0, 0, 0, 0, 0, 0],
            len: 2,
        }
    }

    fn four(number: u16) -> Digits
        ensures { result ≡ four_digits number }
    {
        let [a, b, c, d] = hex4(number);
        Digits {
            bytes: [a, b, c, d, 0, 0, 0, 0, 0],
            len: 4,
        }
    }

    fn pair(first: u16, second: u16) -> Digits
        ensures { result ≡ joined first second }
    {
        let [a, b, c, d] = hex4(first);
        let [e, f, g, h] = hex4(second);
        Digits {
            bytes: [a, b, c, d, b':', e, f, g, h],
            len: 9,
        }
    }
}
