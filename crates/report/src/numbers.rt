//! Numbers as text.

ghost use Rattle.std.specs.Prelude.{◌≡◌, ◌<◌, ◌≤◌, ◌^◌, ◌∷◌, decimal, replicate};
ghost use Rattle.std.specs.Fmt.{signed_decimal};
ghost use Rattle.hex.specs.Hex.{encode_lower};
ghost use Rattle.report.specs.Lines.{AppendsText};
ghost use Rattle.audit_statement.specs.Report.{fraction, billionths, nine_digits};
ghost use Rattle.audit_statement.specs.Words.{quarter_digits, quarters};

use audit_model::buffers::Bytes;
use audit_model::memory::Memory;
use hex::encode_to_slice;
use itoa::Buffer;

const BILLION: u64 = 1_000_000_000;

const ZEROS: &str = "000000000";

/// Appends a number in decimal digits.
pub fn push_number(out: &mut Bytes, number: u64) -> Result<(), Memory>
    ensures { AppendsText out.old out.new (decimal number) result }
{
    out.append(Buffer::new().format(number).as_bytes())
}

/// Appends a number in decimal digits, with a minus sign if it is negative.
pub fn push_signed(out: &mut Bytes, number: i64) -> Result<(), Memory>
    ensures { AppendsText out.old out.new (signed_decimal number) result }
{
    out.append(Buffer::new().format(number).as_bytes())
}

/// Appends a numerator, a slash and a denominator.
pub fn push_fraction(out: &mut Bytes, top: i64, bottom: u64) -> Result<(), Memory>
    ensures { AppendsText out.old out.new (fraction top bottom) result }
{
    push_signed(out, top)?;
    push_denominator(out, bottom)
}

/// Appends a number of billionths as its whole part, a point and nine digits.
pub fn push_billionths(out: &mut Bytes, number: u64) -> Result<(), Memory>
    ensures { AppendsText out.old out.new (billionths number) result }
{
    push_number(out, number / BILLION)?;
    push_decimals(out, number % BILLION)
}

/// Appends a number of quarters: a whole number, and what is left behind a point.
pub fn push_quarters(out: &mut Bytes, number: u32) -> Result<(), Memory>
    ensures { AppendsText out.old out.new (quarters number) result }
{
    push_number(out, u64::from(number / 4))?;
    out.append(quarter_digits(number % 4).as_bytes())
}

/// Returns the digits behind the point of a number of quarters, with the point.
pub fn quarter_digits(rest: u32) -> &'static str
    requires { rest < 4 }
    ensures { result.now ≡ quarter_digits rest }
{
    match rest {
        0 => "",
        1 => ".25",
        2 => ".5",
        _ => ".75",
    }
}

/// Appends the digits of a key, two for each byte.
pub fn push_key(out: &mut Bytes, key: &[u8; 32]) -> Result<(), Memory>
    ensures { AppendsText out.old out.new (encode_lower key.now) result }
{
    let mut digits = [0; 64];
    // The call fails only if the buffer is not twice as long as the key. It is: 64 bytes for 32.
    let _ = encode_to_slice(key.as_slice(), &mut digits);
    out.append(&digits)
}

fn push_denominator(out: &mut Bytes, bottom: u64) -> Result<(), Memory>
    ensures { AppendsText out.old out.new (47 ∷ decimal bottom) result }
{
    out.push(b'/')?;
    push_number(out, bottom)
}

fn push_decimals(out: &mut Bytes, number: u64) -> Result<(), Memory>
    requires { number < 10 ^ 9 }
    ensures { AppendsText out.old out.new (46 ∷ nine_digits number) result }
{
    out.push(b'.')?;
    push_nine_digits(out, number)
}

/// Appends the number, padded with zeros to nine digits.
fn push_nine_digits(out: &mut Bytes, number: u64) -> Result<(), Memory>
    requires { number < 10 ^ 9 }
    ensures { AppendsText out.old out.new (nine_digits number) result }
{
    let mut buffer = Buffer::new();
    let digits = buffer.format(number);
    out.append(zeros(9 - digits.len()))?;
    out.append(digits.as_bytes())
}

fn zeros(count: usize) -> &'static [u8]
    requires { count ≤ 9 }
    ensures { result.now ≡ replicate count 48 }
{
    let nine = ZEROS.as_bytes();
    &nine[..count]
}
