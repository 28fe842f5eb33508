//! Whether one of some lines told a block whose tag differs.
ghost use Rattle.std.specs.Prelude.{◌≡◌, ◌||◌};
ghost use Rattle.script_text.specs.Found.{finds_fault};

use script_text::TagsFound;

/// Differing where one of both is.
pub fn either(one: TagsFound, other: TagsFound) -> TagsFound
    ensures { finds_fault result ≡ (finds_fault one || finds_fault other) }
{
    match one {
        TagsFound::Differing => TagsFound::Differing,
        TagsFound::Matching => other,
    }
}
