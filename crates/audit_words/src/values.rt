//! Tests and conversions of argument values: numbers, ranges, keys and answers.

ghost use Rattle.std.specs.Prelude.{◌≡◌, ◌||◌, ◌<◌, ◌^◌, None, cond, codes, bytes_eq, unwrap_or};
ghost use Rattle.std.specs.Result.{result_ok};
ghost use Rattle.hex.specs.Hex.{decode_sized};
ghost use Rattle.audit_statement.specs.Words as definition;

use audit_model::setting::Command;
use hex::FromHex;
use itoa::Buffer;
use report::quarter_digits;

/// Returns the number if the text spells a number from `low` to `high`, without leading zeros.
pub fn number_within(low: u32, high: u32, text: &str) -> Option<u32>
    ensures { result ≡ cond (definition.is_number low high text.now) (definition.number_of text.now) None }
{
    let number = text.parse::<u32>().ok()?;
    let mut printed = Buffer::new();
    if printed.format(number) == text && low <= number && number <= high {
        Some(number)
    } else {
        None
    }
}

/// Returns true if the text spells a number from `low` to `high`, without leading zeros.
pub fn is_number(low: u32, high: u32, text: &str) -> bool
    ensures { result ≡ definition.is_number low high text.now }
{
    number_within(low, high, text).is_some()
}

/// Returns the number that the text spells, or 0 if the text is no 32-bit number.
pub fn number_in(text: &str) -> u32
    ensures { unwrap_or (definition.number_of text.now) 0 < 2 ^ 32 → result ≡ unwrap_or (definition.number_of text.now) 0 }
{
    number_within(0, u32::MAX, text).unwrap_or(0)
}

/// Returns the number if the text spells a number from 0 to `high`, without leading zeros.
fn length_within(high: u64, text: &str) -> Option<u64>
    ensures { result ≡ cond (definition.is_number 0 high text.now) (definition.number_of text.now) None }
{
    let number = text.parse::<u64>().ok()?;
    let mut printed = Buffer::new();
    if printed.format(number) == text && number <= high {
        Some(number)
    } else {
        None
    }
}

/// Returns true if the text spells a valid limit on the total length of cut edges, without leading zeros.
pub fn is_length(text: &str) -> bool
    ensures { result ≡ definition.is_number 0 1717986918000000 text.now }
{
    length_within(1_717_986_918_000_000, text).is_some()
}

/// Returns the number that the text spells, or 0 if the text is no 64-bit number.
pub fn length_in(text: &str) -> u64
    ensures { unwrap_or (definition.number_of text.now) 0 < 2 ^ 64 → result ≡ unwrap_or (definition.number_of text.now) 0 }
{
    length_within(u64::MAX, text).unwrap_or(0)
}

/// Returns the weight on a cut edge that the text spells, in quarters, if it is from 1 to 64.
pub fn weight_of(text: &str) -> Option<u32>
    ensures { result ≡ definition.weight_of text.now }
{
    for quarters in 4..257 {
        if is_spelled(text, quarters) {
            return Some(quarters);
        }
    }
    None
}

/// Returns true if the text is the number of quarters as it is printed.
fn is_spelled(text: &str, quarters: u32) -> bool
    ensures { result ≡ bytes_eq (definition.quarters quarters) text.now }
{
    let mut printed = Buffer::new();
    let whole = printed.format(quarters / 4).as_bytes();
    match text.as_bytes().strip_prefix(whole) {
        Some(rest) => rest == quarter_digits(quarters % 4).as_bytes(),
        None => false,
    }
}

/// Splits a range `A-B` into its two texts. A text without a dash is both ends.
pub fn range_of(text: &str) -> (&str, &str)
    ensures first { result.0.now ≡ definition.first_of_range text.now }
    ensures last { result.1.now ≡ definition.last_of_range text.now }
{
    match text.split_once('-') {
        Some((first, last)) => (first, last),
        None => (text, text),
    }
}

/// Returns the key if the text is 64 hexadecimal digits.
pub fn key_of(text: &str) -> Option<[u8; 32]>
    ensures { result ≡ result_ok (decode_sized text.now 32) }
{
    <[u8; 32] as FromHex>::from_hex(text).ok()
}

/// Returns true if the text is `yes` or `no`.
pub fn is_answer(text: &str) -> bool
    ensures { result ≡ (bytes_eq text.now (codes "yes") || bytes_eq text.now (codes "no")) }
{
    text == "yes" || text == "no"
}

/// Returns true if the text is one line, or the command does not require one.
pub fn is_one_line(command: Command, text: &str) -> bool
    ensures { result ≡ definition.is_one_line command text.now }
{
    match command {
        Command::Check | Command::Run | Command::Make | Command::Trace => true,
        Command::Plans => !text.as_bytes().contains(&b'\n'),
    }
}
