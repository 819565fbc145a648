// Numbers and names as a field spells them.
ghost use Rattle.std.specs.Char.{is_ascii_digit};
ghost use Rattle.std.specs.List.{list_all};
ghost use Rattle.std.specs.Prelude.{◌≡◌, ◌≤ℤ◌, Some, pos, neg_ℤ, min};
ghost use Rattle.mix_text.specs.Spelling.{is_name, is_name_byte, is_plain, spelled_name, name_text, negative_of, spelled_number, plain_of, value_after, between};

use crate::faults::Code;
use arrayvec::ArrayString;
use std::str;

/// The name of a good or a bidder, of 1 to 32 bytes.
pub type Name = ArrayString<32>;

// A number past every range.
const PAST_ALL: u64 = 100_000_000_000_000;

/// The number that a field spells, from `low` to `high`, which lie within plus and minus 10^13.
///
/// The code is `Number` where the field spells no number, and `Range` where it spells another one.
pub fn read_number(field: &[u8], low: i64, high: i64) -> Result<i64, Code>
    requires ordered { low ≤ℤ high }
    requires not_low { neg_ℤ (pos 10000000000000) ≤ℤ low }
    requires not_high { high ≤ℤ pos 10000000000000 }
    ensures { result ≡ between low high (spelled_number field.now) }
{
    match field {
        [b'-', digits @ ..] => read_negative(digits, low, high),
        _ => read_plain(field, low, high),
    }
}

/// The name that a field spells; the code is `Name` where it spells none.
#[tactic(auto, using(crate::proofs::Spellings::name_is_text), unfolding(crate::specs::Spelling::spelled_name))]
pub fn read_name(field: &[u8]) -> Result<Name, Code>
    ensures { name_text result ≡ spelled_name field.now }
{
    if !spells_name(field) {
        return Err(Code::Name);
    }
    match str::from_utf8(field) {
        Ok(text) => match Name::from(text) {
            Ok(name) => Ok(name),
            Err(_) => Err(Code::Name),
        },
        Err(_) => Err(Code::Name),
    }
}

// The number that digits with no sign spell.
#[tactic(auto, using(crate::proofs::Digits::capped_plain, crate::proofs::Spellings::plain_some, crate::proofs::Spellings::plain_none, crate::proofs::Spellings::between_none))]
fn read_plain(digits: &[u8], low: i64, high: i64) -> Result<i64, Code>
    requires { high ≤ℤ pos 10000000000000 }
    ensures { result ≡ between low high (plain_of digits.now) }
{
    if !is_plain_number(digits) {
        return Err(Code::Number);
    }
    in_range(capped_value(digits) as i64, low, high)
}

// The number that digits after a minus spell.
#[tactic(auto, using(crate::proofs::Digits::capped_negative, crate::proofs::Spellings::negative_some, crate::proofs::Spellings::negative_none, crate::proofs::Spellings::negative_zero, crate::proofs::Spellings::between_none))]
fn read_negative(digits: &[u8], low: i64, high: i64) -> Result<i64, Code>
    requires { neg_ℤ (pos 10000000000000) ≤ℤ low }
    ensures { result ≡ between low high (negative_of digits.now) }
{
    if !is_plain_number(digits) {
        return Err(Code::Number);
    }
    let size = capped_value(digits);
    if size == 0 {
        return Err(Code::Number);
    }
    in_range(-(size as i64), low, high)
}

// A number that lies from `low` to `high`.
#[tactic(auto, unfolding(crate::specs::Spelling::between))]
fn in_range(value: i64, low: i64, high: i64) -> Result<i64, Code>
    ensures { result ≡ between low high (Some value) }
{
    if low <= value && value <= high {
        Ok(value)
    } else {
        Err(Code::Range)
    }
}

// The number that the digits write, or `PAST_ALL` where it is greater.
fn capped_value(digits: &[u8]) -> u64
    ensures { result ≡ min (value_after 0 digits.now) 100000000000000 }
{
    let mut value = 0;
    for b in digits {
        value = (value * 10 + u64::from(b.saturating_sub(b'0'))).min(PAST_ALL);
    }
    value
}

// Whether these are decimal digits, without a leading zero unless it is the one digit.
fn is_plain_number(digits: &[u8]) -> bool
    ensures { result ≡ is_plain digits.now }
{
    !digits.is_empty() && are_digits(digits) && (digits[0] != b'0' || digits.len() == 1)
}

// Whether each byte is a decimal digit.
fn are_digits(digits: &[u8]) -> bool
    ensures { result ≡ list_all is_ascii_digit digits.now }
{
    digits.iter().all(|b| b.is_ascii_digit())
}

// Whether a field spells a name.
fn spells_name(field: &[u8]) -> bool
    ensures { result ≡ is_name field.now }
{
    !field.is_empty()
        && field.len() <= 32
        && field[0].is_ascii_alphabetic()
        && are_name_bytes(field)
}

// Whether each byte may stand in a name.
fn are_name_bytes(field: &[u8]) -> bool
    ensures { result ≡ list_all is_name_byte field.now }
{
    field.iter().all(|b| b.is_ascii_alphanumeric() || *b == b'_' || *b == b'-' || *b == b'.')
}

#[cfg(test)]
mod tests {
    use super::*;

    #[test]
    fn numbers(rt: HostRuntime) {
        let cases: [(&[u8], Result<i64, Code>); 14] = [
            (b"0", Ok(0)),
            (b"7", Ok(7)),
            (b"-10", Ok(-10)),
            (b"11", Err(Code::Range)),
            (b"-11", Err(Code::Range)),
            (b"18446744073709551617", Err(Code::Range)),
            (b"", Err(Code::Number)),
            (b"-", Err(Code::Number)),
            (b"-0", Err(Code::Number)),
            (b"-00", Err(Code::Number)),
            (b"05", Err(Code::Number)),
            (b"+5", Err(Code::Number)),
            (b" 5", Err(Code::Number)),
            (b"--5", Err(Code::Number)),
        ];
        for (field, wanted) in cases {
            assert_eq!(rt; read_number(field, -10, 10), wanted);
        }
        assert_eq!(rt; read_number(&[b'9'; 5000], -10, 10), Err(Code::Range));
        assert_eq!(rt; read_number(&[b'0'; 5000], -10, 10), Err(Code::Number));
    }

    #[test]
    fn names(rt: HostRuntime) {
        let cases: [(&[u8], bool); 7] = [
            (b"A", true),
            (b"z.B_c-9", true),
            (b"", false),
            (b"9a", false),
            (b"_a", false),
            (b"A b", false),
            (b"\xC3\xA4", false),
        ];
        for (field, wanted) in cases {
            assert_eq!(rt; read_name(field).is_ok(), wanted);
        }
        assert!(rt; read_name(&[b'A'; 32]).is_ok());
        assert!(rt; read_name(&[b'A'; 33]).is_err());
    }
}
