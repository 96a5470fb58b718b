//! The bytes that a text with escapes stands for.
ghost use Rattle.std.specs.Prelude.{◌≡◌, ◌<◌, ◌++◌, IfOk, OnOk};
ghost use Rattle.row_texts.specs.Escapes.{digit, letter_of, after, byte_of, none_or_one, unescaped};

use std::alloc::{AllocError, Global};

/// What of an escape stands before a byte.
#[derive(Clone, Copy)]
enum Begun {
    Nothing,
    Backslash,
    Hex,
    Digit(u8),
}

// The value of a hexadecimal digit.
fn digit(byte: u8) -> u8
    ensures value { result ≡ digit byte }
    ensures small { result < 16 }
{
    (byte % 16 + byte / 64 * 9) % 16
}

// The byte that a letter after a backslash stands for: a letter that is none of the three for itself.
fn letter_of(byte: u8) -> u8
    ensures { result ≡ letter_of byte }
{
    match byte {
        b'n' => b'\n',
        b'r' => b'\r',
        b't' => b'\t',
        _ => byte,
    }
}

// What of an escape has begun after a byte.
fn after(begun: Begun, byte: u8) -> Begun
    ensures { result ≡ after begun byte }
{
    match begun {
        Begun::Nothing => if byte == b'\\' {
            Begun::Backslash
        } else {
            Begun::Nothing
        },
        Begun::Backslash => if byte == b'x' {
            Begun::Hex
        } else {
            Begun::Nothing
        },
        Begun::Hex => Begun::Digit(digit(byte)),
        Begun::Digit(_) => Begun::Nothing,
    }
}

// The byte that ends with this one, if one does.
fn byte_of(begun: Begun, byte: u8) -> Option<u8>
    ensures { result ≡ byte_of begun byte }
{
    match begun {
        Begun::Nothing => if byte == b'\\' { None } else { Some(byte) },
        Begun::Backslash => if byte == b'x' {
            None
        } else {
            Some(letter_of(byte))
        },
        Begun::Hex => None,
        Begun::Digit(high) => Some(high % 16 * 16 + digit(byte)),
    }
}

// Adds a byte, if there is one.
fn push_byte(bytes: &mut Vec<u8>, byte: Option<u8>) -> Result<(), AllocError>
    ensures { OnOk result (bytes.new.items ≡ bytes.old.items ++ none_or_one byte) }
{
    if let Some(byte) = byte {
        bytes.push(byte)?;
    }
    Ok(())
}

/// The bytes of a text, where `\n`, `\r` and `\t` are a line feed, a carriage return and a tab, `\x` and two
/// hexadecimal digits a byte, and a backslash before any other byte that byte. An escape that isn't ended is nothing.
pub fn unescaped(alloc: Global, text: &str) -> Result<Vec<u8>, AllocError>
    ensures { IfOk result (λ v. v.items ≡ unescaped text.now) }
{
    let mut bytes = Vec::new(alloc);
    let mut begun = Begun::Nothing;
    let source = text.as_bytes();
    for byte in source {
        push_byte(&mut bytes, byte_of(begun, *byte))?;
        begun = after(begun, *byte);
    }
    Ok(bytes)
}
