//! The numbers that texts write.
ghost use Rattle.std.specs.Prelude.{◌≡◌, ◌<◌, ◌≤◌, ◌^◌, IfSome, slice_index, ◌==◌};
ghost use Rattle.std.specs.Char.{is_ascii_digit, is_digit};
ghost use Rattle.std.specs.List.{list_all};
ghost use Rattle.pid_form.specs.Numbers.{
  is_plain_number as plain_number,
  number_up_to as number_to,
  numeral as numeral_of,
};

fn are_decimal(bytes: &[u8]) -> bool
    ensures { result ≡ list_all is_ascii_digit bytes.now }
{
    let mut all = true;
    for byte in bytes {
        all &= byte.is_ascii_digit();
    }
    all
}

fn begins_zero(bytes: &[u8]) -> bool
    ensures { result ≡ (slice_index bytes.now 0 == 48) }
{
    matches!(bytes, [b'0', ..])
}

// Whether a text is 1 to so many decimal digits, the first of which is no zero.
fn is_plain_number(text: &str, most_digits: usize) -> bool
    ensures { result ≡ plain_number most_digits text.now }
{
    let bytes = text.as_bytes();
    if bytes.is_empty() || bytes.len() > most_digits || begins_zero(bytes) {
        return false;
    }
    are_decimal(bytes)
}

/// The number that a text writes, if it is at most `most`. The text is 1 to `most_digits` decimal
/// digits without a leading zero; any other text writes none.
pub fn number_up_to(text: &str, most: u64, most_digits: usize) -> Option<u64>
    ensures number { result ≡ number_to most most_digits text.now }
    ensures bound { IfSome result (λ number. number ≤ most) }
{
    if !is_plain_number(text, most_digits) {
        return None;
    }
    match text.parse::<u64>() {
        Ok(number) => { if number <= most { Some(number) } else { None } }
        Err(_) => None,
    }
}

fn are_digits(bytes: &[u8], radix: u32) -> bool
    requires binary { 2 ≤ radix }
    requires letters { radix ≤ 36 }
    ensures { result ≡ list_all (λ c. is_digit c radix) bytes.now }
{
    let mut all = true;
    for byte in bytes {
        all &= char::from(*byte).is_digit(radix);
    }
    all
}

/// The number that a text of `least` to `most` digits of a radix writes; letters may be in either
/// case. Any other text writes none.
pub fn numeral(text: &str, radix: u32, least: usize, most: usize) -> Option<u32>
    requires some { 0 < least }
    requires base { (2 ≤ radix) × (radix ≤ 36) }
    requires fits { radix ^ most ≤ 2 ^ 32 }
    ensures value { result ≡ numeral_of radix least most text.now }
    ensures bound { IfSome result (λ number. number < radix ^ most) }
{
    if text.len() < least || text.len() > most || !are_digits(text.as_bytes(), radix) {
        return None;
    }
    match u32::from_str_radix(text, radix) {
        Ok(number) => Some(number),
        Err(_) => None,
    }
}
