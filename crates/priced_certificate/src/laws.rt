ghost use Rattle.std.specs.Prelude.{◌≡◌, ◌≢◌, ◌++◌, ℕ, List, All};
ghost use Rattle.hold_parts.specs.Spellings.{IsName};
ghost use Rattle.hold_parts.specs.declared.parts.Position.{Position};
ghost use Rattle.text_lines.specs.Lines.{text_of};
ghost use Rattle.certificate.specs.Starts.{IsEarlier};
ghost use Rattle.certificate.specs.declared.fault.CertFault.{CertFault};
ghost use Rattle.priced_certificate.specs.PricedText.{start_line, priced_certificate_text, IsSpelled, Spells};
ghost use Rattle.priced_certificate.specs.Refusals.{IsRefused};
ghost use Rattle.priced_certificate.specs.declared.parts.PricedCertificate.{PricedCertificate};

/// Every text has exactly one answer over positions with names. It spells at most one certificate; a text that spells
/// one has no fault; a text has at most one fault; and no text is without both a certificate and a fault. Running out of
/// memory says nothing about the text and is no answer in this sense. The text of a certificate whose parts can be
/// spelled spells it, also behind any lines that are not `CERTIFICATE 2`.
///
/// The call does nothing: it exists for its contract.
pub fn priced_reading_laws()
    ensures one_certificate { (ps : List Position) → All (λ (q : Position). IsName q.name) ps → (text : List ℕ)
        (a b : PricedCertificate) → Spells ps text a → Spells ps text b → a ≡ b }
    ensures no_fault { (ps : List Position) → All (λ (q : Position). IsName q.name) ps → (text : List ℕ)
        (c : PricedCertificate) (fault : CertFault) → Spells ps text c → IsRefused ps text fault → fault ≡ CertFault.NoMemory }
    ensures one_fault { (ps : List Position) → All (λ (q : Position). IsName q.name) ps → (text : List ℕ)
        (a b : CertFault) → IsRefused ps text a → IsRefused ps text b
        → a ≢ CertFault.NoMemory → b ≢ CertFault.NoMemory → a ≡ b }
    ensures some_answer { (ps : List Position) (text : List ℕ) → ((c : PricedCertificate) → Spells ps text c → ⊥)
        → ((fault : CertFault) → IsRefused ps text fault → fault ≡ CertFault.NoMemory) → ⊥ }
    ensures read_back { (ps : List Position) (c : PricedCertificate) → IsSpelled ps c
        → (before : List (List ℕ)) → All (IsEarlier start_line) before
        → Spells ps (text_of before ++ priced_certificate_text ps c) c }
{}
