//! The digits of a tag, without memory.
ghost use Rattle.std.specs.Prelude.{◌≡◌};
ghost use Rattle.hex.specs.Hex.{encode_lower};

use hex::encode_to_slice;
use hmac_tag::Tag;

/// The most digits of a tag: two for each of 32 bytes.
pub const MOST_DIGITS: usize = 64;

/// The digits of a tag in base 16, in lower case, two for each byte, in a buffer that has room for those of any tag.
pub fn tag_digits<'b>(tag: &Tag, buffer: &'b mut [u8; MOST_DIGITS]) -> &'b [u8]
    ensures { result.now ≡ encode_lower tag.now }
{
    let bytes = tag.bytes();
    let digits = &mut buffer[..2 * bytes.len()];
    let _ = encode_to_slice(bytes, digits);
    digits
}
