//! The word on a block.
ghost use Rattle.std.specs.Prelude.{◌≡◌};
ghost use Rattle.salvage_model.specs.Verdicts.{is_good};
ghost use Rattle.image_salvage.specs.Telling.{as_verdict};

use hmac_tag::Tag;

/// What is told of a block beside its bytes.
#[derive(Clone, Copy, Debug)]
pub struct Verdict {
    pub block: u64,
    /// The tag that is stored for it.
    pub stored: Tag,
    /// The tag of its bytes.
    pub computed: Tag,
}

impl Verdict {
    /// Whether the block is good: its tags are the same.
    pub fn is_good(&self) -> bool
        ensures { result ≡ is_good (as_verdict self.now) }
    {
        self.stored.bytes() == self.computed.bytes()
    }
}
