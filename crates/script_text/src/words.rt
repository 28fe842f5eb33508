//! The words of a line, one after the other.
ghost use Rattle.std.specs.Prelude.{◌≡◌, ◌≤◌, ◌==◌, ◌∷◌, [], length, IfSome, IfNone};
ghost use Rattle.std.specs.List.{position_or_len, prefix_len};
ghost use Rattle.device_model.specs.Grammar.{words_in};

use memchr::memchr;

/// What is left of a line.
#[derive(Clone, Copy)]
pub struct Words<'a> {
    pub rest: &'a [u8],
}

impl<'a> Words<'a> {
    /// The words of a line.
    pub fn new(line: &'a [u8]) -> Words<'a>
        ensures { result.rest.now ≡ line.now }
    {
        Words { rest: line }
    }

    /// Takes the next word. None where no word is left.
    pub fn take_word(&mut self) -> Option<&'a [u8]>
        ensures word { IfSome result (λ word.
            words_in self.old.rest.now ≡ word.now ∷ words_in self.new.rest.now) }
        ensures none { IfNone result (words_in self.old.rest.now ≡ []) }
    {
        let text = &self.rest[count_spaces(self.rest)..];
        if text.is_empty() {
            return None;
        }
        let end = end_of_word(text);
        self.rest = &text[end..];
        Some(&text[..end])
    }
}

/// How many spaces stand at the front.
fn count_spaces(bytes: &[u8]) -> usize
    ensures count { result ≡ prefix_len (λ byte. byte == 32) bytes.now }
    ensures within { result ≤ length bytes.now }
{
    bytes.iter().take_while(|byte| **byte == b' ').count()
}

/// Where the first space stands, or the end.
fn end_of_word(text: &[u8]) -> usize
    ensures end { result ≡ position_or_len (λ byte. byte == 32) text.now }
    ensures within { result ≤ length text.now }
{
    memchr(b' ', text).unwrap_or(text.len())
}
