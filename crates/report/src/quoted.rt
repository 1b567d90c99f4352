//! JSON strings (RFC 8259).

ghost use Rattle.std.specs.Prelude.{◌≡◌, ◌<◌};
ghost use Rattle.std.specs.Char.{digit_char};
ghost use Rattle.json.specs.Print as definition;
ghost use Rattle.report.specs.Lines.{AppendsText};

use audit_model::buffers::Bytes;
use audit_model::memory::Memory;

/// Appends a text in quotes, with an escape for each byte that JSON does not allow as it is.
pub fn push_quoted(out: &mut Bytes, text: &str) -> Result<(), Memory>
    ensures { AppendsText out.old out.new (definition.quoted text.now) result }
{
    out.push(b'"')?;
    push_escaped(out, text.as_bytes())?;
    out.push(b'"')
}

/// Appends the escaped form of these bytes.
fn push_escaped(out: &mut Bytes, bytes: &[u8]) -> Result<(), Memory>
    ensures { AppendsText out.old out.new (definition.escape bytes.now) result }
{
    for byte in bytes {
        push_byte(out, *byte)?;
    }
    Ok(())
}

/// Appends a byte as itself, as a short escape, or by its number.
fn push_byte(out: &mut Bytes, byte: u8) -> Result<(), Memory>
    ensures { AppendsText out.old out.new (definition.escape_byte byte) result }
{
    let letter = escape_letter(byte);
    if letter > 0 {
        return out.append(&[b'\\', letter]);
    }
    if byte < 32 {
        return out.append(&[b'\\', b'u', b'0', b'0', digit(byte / 16), digit(byte % 16)]);
    }
    out.push(byte)
}

/// Returns the letter of a byte's short escape, or 0 if it has none.
fn escape_letter(byte: u8) -> u8
    ensures { result ≡ definition.escape_letter byte }
{
    match byte {
        b'"' | b'\\' => byte,
        8 => b'b',
        12 => b'f',
        b'\n' => b'n',
        b'\r' => b'r',
        b'\t' => b't',
        _ => 0,
    }
}

fn digit(value: u8) -> u8
    requires { value < 16 }
    ensures { result ≡ digit_char value }
{
    if value < 10 {
        b'0' + value
    } else {
        b'a' - 10 + value
    }
}
