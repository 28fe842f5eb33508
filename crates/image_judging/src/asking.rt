//! Asking for consent, before the journal of an image is looked at.
ghost use Rattle.std.specs.Prelude.{◌≡◌, ◌↔◌, true, false, IfErr, IsOk};
ghost use Rattle.image_model.specs.Bitmap.{some_await};
ghost use Rattle.hmac_tag.specs.TagMaker.{key_of};
ghost use Rattle.judging_model.specs.Faults.{lacks_consent};

use hmac_tag::Hash;
use image_model::{RECALCULATING, Super};
use image_refusal::{CallFault, OpenFault};
use judging_model::Consent;

/// Judges whether tags of an image without a bitmap may be made anew, by its fields alone.
///
/// # Errors
///
/// - `Consent`: some block is to be recalculated, there is a key, and consent is withheld.
pub fn judge_consent(
    fields: &Super,
    hash: &Hash,
    consent: Consent,
) -> Result<(), CallFault<OpenFault>>
    ensures given { IsOk result ↔ (lacks_consent (key_of hash.now) consent (some_await fields.now) ≡ false) }
    ensures lacking { IfErr result (λ fault. lacks_consent (key_of hash.now) consent (some_await fields.now) ≡ true) }
    ensures fault { IfErr result (λ fault. fault ≡ CallFault.Refused (OpenFault.Consent fields.now.flags)) }
{
    if lacks_consent(hash, consent, some_await(fields)) {
        let flags = fields.flags;
        return Err(CallFault::Refused(OpenFault::Consent { flags }));
    }
    Ok(())
}

/// Whether tags under a key would be made anew without consent, where some block awaits that or none does.
///
/// Source: Linux, `drivers/md/dm-integrity.c`, `legacy_recalculate`.
pub fn lacks_consent(hash: &Hash, consent: Consent, some_await: bool) -> bool
    ensures { result ≡ lacks_consent (key_of hash.now) consent some_await }
{
    match (hash, consent) {
        (Hash::Hmac(_), Consent::Withheld) => some_await,
        _ => false,
    }
}

/// Whether some block is to be recalculated.
fn some_await(fields: &Super) -> bool
    ensures { result ≡ some_await fields.now }
{
    fields.flags & RECALCULATING != 0 && fields.recalc_sector < fields.provided
}
