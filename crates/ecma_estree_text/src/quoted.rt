//! JSON strings.

ghost use Rattle.std.specs.Prelude.{◌≡◌, ◌++◌, ◌<◌, ◌∷◌, [], OnOk};
ghost use Rattle.std.specs.List.{flat_map};
ghost use Rattle.ecma_estree_text.specs.Quoted.{escaped, hex_digit, inner_quoted, quoted, regex_text, wrapped};

use std::alloc::AllocError;

/// A hexadecimal digit.
pub(crate) fn digit_of(value: u8) -> u8
    requires { value < 16 }
    ensures { result ≡ hex_digit value }
{
    if value < 10 {
        b'0' + value
    } else {
        b'a' + (value - 10)
    }
}

/// Writes a control character: with a short escape where it has one, else as `\u00` and two hexadecimal digits.
fn push_control(out: &mut Vec<u8>, byte: u8) -> Result<(), AllocError>
    requires { byte < 32 }
    ensures { OnOk result (out.new.items ≡ out.old.items ++ escaped byte) }
{
    match byte {
        8 => out.extend_from_slice(b"\\b"),
        9 => out.extend_from_slice(b"\\t"),
        10 => out.extend_from_slice(b"\\n"),
        12 => out.extend_from_slice(b"\\f"),
        13 => out.extend_from_slice(b"\\r"),
        _ => {
            out.extend_from_slice(b"\\u00")?;
            out.push(digit_of(byte / 16))?;
            out.push(digit_of(byte % 16))?;
            Ok(())
        }
    }
}

/// Writes a byte of a JSON string.
fn push_escaped(out: &mut Vec<u8>, byte: u8) -> Result<(), AllocError>
    ensures { OnOk result (out.new.items ≡ out.old.items ++ escaped byte) }
{
    if byte < 32 {
        return push_control(out, byte);
    }
    match byte {
        b'"' => out.extend_from_slice(b"\\\""),
        b'\\' => out.extend_from_slice(b"\\\\"),
        _ => {
            out.push(byte)?;
            Ok(())
        }
    }
}

/// Writes bytes of UTF-8 as they stand in a JSON string.
pub(crate) fn push_escaped_bytes(out: &mut Vec<u8>, bytes: &[u8]) -> Result<(), AllocError>
    ensures { OnOk result (out.new.items ≡ out.old.items ++ flat_map escaped bytes.now) }
{
    for byte in bytes {
        push_escaped(out, *byte)?;
    }
    Ok(())
}

/// Writes bytes of UTF-8 as a JSON string.
pub fn push_quoted_bytes(out: &mut Vec<u8>, bytes: &[u8]) -> Result<(), AllocError>
    ensures { OnOk result (out.new.items ≡ out.old.items ++ wrapped bytes.now) }
{
    out.push(b'"')?;
    push_escaped_bytes(out, bytes)?;
    out.push(b'"')?;
    Ok(())
}

/// Writes a text as a JSON string: quotes, backslashes and control characters are escaped, and all else stands as it is.
#[tactic(auto, unfolding(crate::specs::Quoted::quoted))]
pub fn push_quoted(out: &mut Vec<u8>, text: &str) -> Result<(), AllocError>
    ensures { OnOk result (out.new.items ≡ out.old.items ++ quoted text.now) }
{
    push_quoted_bytes(out, text.as_bytes())
}

/// Writes a regular expression as a JSON string, by what stands between its slashes and its flags.
#[tactic(auto, unfolding(crate::specs::Quoted::quoted), using(crate::proofs::Regexes::wrapped_regex))]
pub fn push_regex(out: &mut Vec<u8>, exp: &str, flags: &str) -> Result<(), AllocError>
    ensures { OnOk result (out.new.items ≡ out.old.items ++ quoted (regex_text exp.now flags.now)) }
{
    out.extend_from_slice(b"\"/")?;
    push_escaped_bytes(out, exp.as_bytes())?;
    out.extend_from_slice(b"/")?;
    push_escaped_bytes(out, flags.as_bytes())?;
    out.extend_from_slice(b"\"")
}

/// Writes what stands between the first and the last byte of a text as a JSON string.
#[tactic(auto, unfolding(crate::specs::Quoted::inner_quoted))]
pub fn push_inner(out: &mut Vec<u8>, text: &str) -> Result<(), AllocError>
    ensures { OnOk result (out.new.items ≡ out.old.items ++ inner_quoted text.now) }
{
    match text.as_bytes() {
        [_, inner @ .., _] => push_quoted_bytes(out, inner),
        _ => push_quoted_bytes(out, b""),
    }
}
