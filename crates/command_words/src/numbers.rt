//! Numbers in words.
ghost use Rattle.std.specs.Prelude.{◌≡◌, Some, option_map};
ghost use Rattle.command_words.specs.Given.{value_or};
ghost use Rattle.command_words.specs.Numbers.{number_of, number_within, within};

use crate::values::Within;
use itoa::Buffer;

/// The number below 2^64 that the text writes in decimal digits without leading zeros, if it writes one.
pub(crate) fn number(text: &str) -> Option<u64>
    ensures { result ≡ number_of text.now }
{
    let number = text.parse::<u64>().ok()?;
    if Buffer::new().format(number) == text {
        Some(number)
    } else {
        None
    }
}

/// The number in a range that the text writes, if it writes one.
pub(crate) fn number_within<const LEAST: u64, const MOST: u64>(
    text: &str,
) -> Option<Within<LEAST, MOST>>
    ensures { result ≡ number_within LEAST MOST text.now }
{
    Within::new(number(text)?)
}

/// The same of an option that may be left out, and stands for `absent` then.
pub(crate) fn number_or<const LEAST: u64, const MOST: u64>(
    text: Option<&str>,
    absent: u64,
) -> Option<Within<LEAST, MOST>>
    requires { within LEAST MOST absent ≡ Some absent }

    ensures { result ≡ value_or absent (number_within LEAST MOST) (option_map (λ text. text.now) text.entry) }
{
    match text {
        Some(text) => number_within(text),
        None => Within::new(absent),
    }
}
