//! Digits in base 16.
ghost use Rattle.std.specs.Prelude.{◌≡◌, ◌<◌, length, false};
ghost use Rattle.std.specs.Fmt.{digit_glyph, digits};

/// The digits of a number, without leading zeros, in a buffer that has room for any number of 32 bits.
pub(crate) fn hexadecimal(n: u32, buffer: &mut [u8; 8]) -> &[u8]
    ensures { result.now ≡ digits 16 false n }
{
    let mut left = n;
    let mut at = 7;
    while left >= 16 {
        buffer[at] = digit(left % 16);
        left /= 16;
        at -= 1;
    }
    buffer[at] = digit(left);
    &buffer[at..]
}

/// The digit of a number below 16.
fn digit(n: u32) -> u8
    requires { n < 16 }

    ensures { result ≡ digit_glyph false n }
{
    if n < 10 {
        b'0' + n as u8
    } else {
        b'a' + (n as u8 - 10)
    }
}
