ghost use Rattle.std.specs.Prelude.{◌≡◌, ◌⊎◌, ℕ, ◌+◌, ◌*◌, ◌<◌, ◌≤◌, Some, Contains};
ghost use Rattle.flat_code.specs.Codes.{FlatCode, operation_at};
ghost use Rattle.flat_code.specs.declared.operations.Op.{Op};
ghost use Rattle.stack_image.specs.declared.images.Image.{Image};
ghost use Rattle.stack_certificate.specs.declared.certificates.Certificate.{Certificate};
ghost use Rattle.stack_certificate.specs.declared.sites.LinkKind.{LinkKind};
ghost use Rattle.stack_certificate.specs.Certificates.{fact_at};
ghost use Rattle.stack_certificate.specs.Templates.{kind_of};
ghost use Rattle.certificate_rules.specs.Ranges.{AreApart};
ghost use Rattle.certificate_rules.specs.Rules.{member_entries, starting_words};
ghost use Rattle.certificate_rules.specs.Sites.{certified_site, callees_of};
ghost use Rattle.certificate_rules.specs.Validity.{IsValid, IsFirstFailure};

/// Law: a pair is valid or has a first failure, never both, and it has at most one.
pub fn failures_are_one()
    ensures not_both { (code : FlatCode) (image : Image) (certificate : Certificate) (rule f i : ℕ) →
        IsValid code image certificate → IsFirstFailure code image certificate rule f i → ⊥ }
    ensures one { (code : FlatCode) (image : Image) (certificate : Certificate) (rule f i other g j : ℕ) →
        IsFirstFailure code image certificate rule f i → IsFirstFailure code image certificate other g j →
        (rule ≡ other) × (f ≡ g) × (i ≡ j) }
{}

/// Law: if a pair is valid, the image's tables and globals are exactly the lists that the program declares; at a plain
/// site the caller's bound has room for its frame and for each function that the site may enter, and at a linked site
/// or a new thread's the need has; and of two disjoint ranges of words, one ends before the other begins.
pub fn valid_pairs_have_room()
    ensures tables { (code : FlatCode) (image : Image) (certificate : Certificate) → IsValid code image certificate →
        image.tables ≡ member_entries code certificate }
    ensures globals { (code : FlatCode) (image : Image) (certificate : Certificate) → IsValid code image certificate →
        image.globals ≡ starting_words code }
    ensures plain { (code : FlatCode) (image : Image) (certificate : Certificate) → IsValid code image certificate →
        (f k site g : ℕ) (op : Op) → operation_at code f k ≡ Some op → certified_site op ≡ Some site →
        kind_of certificate op ≡ LinkKind.Plain → Contains (callees_of code op) g →
        (fact_at certificate f).frame + (fact_at certificate g).bound ≤ (fact_at certificate f).bound }
    ensures linked { (code : FlatCode) (image : Image) (certificate : Certificate) → IsValid code image certificate →
        (f k site need g : ℕ) (op : Op) → operation_at code f k ≡ Some op → certified_site op ≡ Some site →
        (kind_of certificate op ≡ LinkKind.Linked need) ⊎ (kind_of certificate op ≡ LinkKind.Spawned need) →
        Contains (callees_of code op) g → (fact_at certificate g).bound ≤ need }
    ensures apart { (start words other others : ℕ) → 0 < words → 0 < others → AreApart start words other others →
        (start + 4 * words ≤ other) ⊎ (other + 4 * others ≤ start) }
{}
