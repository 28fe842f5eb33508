//! Numbers and bytes, as a script writes them.
ghost use Rattle.std.specs.Prelude.{◌≡◌, ◌≢◌, ◌^◌, ◌<◌, ℕ, [], ◌∷◌, IfSome, IfNone, IsTrue, ◌↔◌};
ghost use Rattle.std.specs.Fmt.{decimal};
ghost use Rattle.hex.specs.Hex.{encode_lower};
ghost use Rattle.device_model.specs.Grammar.{Fits, NumberPlace, BytePlace};
ghost use Rattle.script_text.specs.Plain.{IsPlain};

use crate::pieces::digits_of;

/// The number that these bytes are, in decimal digits without a leading zero.
pub fn read_number(text: &[u8]) -> Option<u64>
    ensures some { IfSome result (λ number. text.now ≡ decimal number) }
    ensures none { IfNone result (¬ Fits NumberPlace text.now) }
{
    if let Some(number) = read_digit(text) {
        return Some(number);
    }
    if !is_plain(text) {
        return None;
    }
    let Ok(word) = str::from_utf8(text) else {
        return None;
    };
    word.parse().ok()
}

/// The number below 10 that these bytes are. In runs of single bytes each number is one.
fn read_digit(text: &[u8]) -> Option<u64>
    ensures { IfSome result (λ number. text.now ≡ decimal number) }
{
    if text.len() != 1 || !text[0].is_ascii_digit() {
        return None;
    }
    Some(u64::from(text[0] - b'0'))
}

/// Whether these bytes begin neither with a sign nor with a leading zero.
fn is_plain(text: &[u8]) -> bool
    ensures { IsTrue result ↔ IsPlain text.now }
{
    match text.first() {
        Some(b'+') => false,
        Some(b'0') => text.len() == 1,
        _ => true,
    }
}

/// The byte that these bytes are, in two hexadecimal digits of lower case.
pub fn read_byte(text: &[u8]) -> Option<u8>
    ensures some { IfSome result (λ byte. text.now ≡ encode_lower (byte ∷ [])) }
    ensures none { IfNone result (¬ Fits BytePlace text.now) }
{
    let mut byte = [0];
    if hex::decode_to_slice(text, &mut byte).is_err() {
        return None;
    }
    if digits_of(byte[0]).as_slice() != text {
        return None;
    }
    Some(byte[0])
}
