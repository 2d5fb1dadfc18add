// Every list of bytes is an image or is refused, and every text is a certificate or is refused.
ghost use Rattle.std.specs.Prelude.{ℕ, ◌≡◌, ◌<◌, ◌⊎◌, List, Some, slice_index};
ghost use Rattle.stack_image.specs.declared.images.Image.{Image};
ghost use Rattle.stack_image.specs.declared.refusals.ImageError.{ImageError};
ghost use Rattle.stack_image.specs.Refusal.{refusal_of};
ghost use Rattle.stack_image.specs.Spelling as image;
ghost use Rattle.stack_certificate.specs.declared.certificates.Certificate.{Certificate};
ghost use Rattle.certificate_text.specs.Text as certificate;
ghost use Rattle.certificate_text.specs.FirstRefused.{IsFirstRefused};

/// Law: every list of bytes, each below 256, is an image or has a refusal.
pub fn image_is_read_or_refused()
    ensures { (bytes : List ℕ) → ((k : ℕ) → slice_index bytes k < 256) →
        ((i : Image) × image.IsWithinLimits i × image.HoldsWords i × (bytes ≡ image.spelling i)) ⊎ ((error : ImageError) × (refusal_of bytes ≡ Some error)) }
{}

/// Law: every text is a certificate or has a first refused line.
pub fn certificate_is_read_or_refused()
    ensures { (text : List ℕ) →
        ((c : Certificate) × certificate.IsWithinLimits c × certificate.HoldsWords c × (text ≡ certificate.spelling c)) ⊎ ((number : ℕ) × IsFirstRefused text number) }
{}
