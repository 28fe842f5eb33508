//! Appends pieces to a text that has room for them, so that no memory is taken.
ghost use Rattle.std.specs.Prelude.{◌≡◌, ◌+◌, ◌*◌, ◌≤◌, ◌++◌, [], ◌∷◌, length, vec_len, vec_capacity};
ghost use Rattle.std.specs.Fmt.{decimal};
ghost use Rattle.hex.specs.Hex.{encode_lower};

use itoa::Buffer;

/// Appends bytes.
pub fn put_bytes(text: &mut Vec<u8>, bytes: &[u8])
    requires room { vec_len text.old + length bytes.now ≤ vec_capacity text.old }

    ensures written { text.new.items ≡ text.old.items ++ bytes.now }
    ensures len { vec_len text.new ≡ vec_len text.old + length bytes.now }
    ensures capacity { vec_capacity text.old ≤ vec_capacity text.new }
{
    text.extend_from_slice(bytes).unwrap();
}

/// Appends a number, in decimal digits.
pub fn put_number(text: &mut Vec<u8>, n: u64)
    requires room { vec_len text.old + length (decimal n) ≤ vec_capacity text.old }

    ensures written { text.new.items ≡ text.old.items ++ decimal n }
    ensures len { vec_len text.new ≡ vec_len text.old + length (decimal n) }
    ensures capacity { vec_capacity text.old ≤ vec_capacity text.new }
{
    let mut buffer = Buffer::new();
    put_bytes(text, buffer.format(n).as_bytes());
}

/// The hexadecimal digits.
pub(crate) const DIGITS: [u8; 16] = *b"0123456789abcdef";

/// The two hexadecimal digits of a byte. They are looked up, since a text may have millions.
pub fn digits_of(byte: u8) -> [u8; 2]
    ensures { result ≡ encode_lower (byte ∷ []) }
{
    [DIGITS[(byte / 16) as usize], DIGITS[(byte % 16) as usize]]
}

/// Appends a byte, in two hexadecimal digits.
pub fn put_byte(text: &mut Vec<u8>, byte: u8)
    requires room { vec_len text.old + 2 ≤ vec_capacity text.old }

    ensures written { text.new.items ≡ text.old.items ++ encode_lower (byte ∷ []) }
    ensures len { vec_len text.new ≡ vec_len text.old + 2 }
    ensures capacity { vec_capacity text.old ≤ vec_capacity text.new }
{
    put_bytes(text, &digits_of(byte));
}

/// Appends bytes, each in two hexadecimal digits.
pub fn put_hex(text: &mut Vec<u8>, bytes: &[u8])
    requires room { vec_len text.old + 2 * length bytes.now ≤ vec_capacity text.old }

    ensures written { text.new.items ≡ text.old.items ++ encode_lower bytes.now }
    ensures len { vec_len text.new ≡ vec_len text.old + 2 * length bytes.now }
    ensures capacity { vec_capacity text.old ≤ vec_capacity text.new }
{
    for byte in bytes {
        put_byte(text, *byte);
    }
}
