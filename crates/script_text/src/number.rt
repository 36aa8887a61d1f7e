//! Numbers in decimal.
ghost use Rattle.std.specs.Prelude.{◌≡◌, ℕ, ◌^◌, ◌<◌, ◌++◌, decimal, OnOk, MatchOption};
ghost use Rattle.std.specs.Option.{SomeIff};
ghost use Rattle.std.specs.Str.Parse.{AllDigits, digits_value};

use itoa::Buffer;
use prcu_model::NoMemory;

/// Appends the number in decimal. At `NoMemory` nothing is said of what stands in `out` then.
pub fn push_number(out: &mut Vec<u8>, number: u64) -> Result<(), NoMemory>
    ensures { OnOk result (out.new.items ≡ out.old.items ++ decimal number) }
{
    let mut buffer = Buffer::new();
    out.extend_from_slice(buffer.format(number).as_bytes())?;
    Ok(())
}

// The value of the digits. `None` where a byte is no digit, or the value isn't below 2^64.
fn read_digits(digits: &[u8]) -> Option<u64>
    ensures { SomeIff result
        (AllDigits 10 digits.now × (digits_value 10 digits.now < 2 ^ 64))
        (digits_value 10 digits.now) }
{
    let mut value: u64 = 0;
    for digit in digits {
        if !digit.is_ascii_digit() {
            return None;
        }
        value = value.checked_mul(10)?.checked_add(u64::from(digit - b'0'))?;
    }
    Some(value)
}

/// The number that the bytes are in decimal: digits, without a leading zero, of a number below 2^64. `None` for all else.
pub fn read_number(bytes: &[u8]) -> Option<u64>
    ensures { MatchOption result
        ((n : ℕ) → n < 2 ^ 64 → bytes.now ≡ decimal n → ⊥)
        (λ n. bytes.now ≡ decimal n) }
{
    if bytes.is_empty() {
        return None;
    }
    if bytes.len() > 1 && bytes[0] == b'0' {
        return None;
    }
    read_digits(bytes)
}
