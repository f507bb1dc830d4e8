//! What a reader may want to know of the definitions. Each law is a contract over all bytes; its body does nothing.

ghost use Rattle.std.specs.Prelude.{◌≡◌, ℕ, List};
ghost use Rattle.certificate.specs.declared.line.Line.{Line};
ghost use Rattle.certificate.specs.declared.entries.Header.{Header};
ghost use Rattle.certificate.specs.declared.entries.Entry.{Entry};
ghost use Rattle.certificate.specs.declared.fault.Why.{Why};
ghost use Rattle.certificate.specs.Lines.{StandsAt};
ghost use Rattle.certificate.specs.Certificates.{IsCertificate, IsFault, most_bytes};
ghost use Rattle.certificate.specs.declared.reader.TheConstants.{MOST_BYTES};

/// The limit of the code is that of the definitions.
pub fn limits()
    ensures { MOST_BYTES ≡ most_bytes }
{}

/// At most one line begins at a place.
pub fn one_line()
    ensures { (bytes : List ℕ) (place : ℕ) (line other : Line) (after behind : ℕ)
        → StandsAt bytes place line after → StandsAt bytes place other behind → (line ≡ other) × (after ≡ behind) }
{}

/// Bytes say one thing at most, or have one fault at most, and not both.
pub fn one_outcome()
    ensures certificate { (bytes : List ℕ) (header other : Header) (entries others : List Entry)
        → IsCertificate bytes header entries → IsCertificate bytes other others → (header ≡ other) × (entries ≡ others) }
    ensures fault { (bytes : List ℕ) (line number : ℕ) (why reason : Why)
        → IsFault bytes line why → IsFault bytes number reason → (line ≡ number) × (why ≡ reason) }
    ensures either { (bytes : List ℕ) (header : Header) (entries : List Entry) (line : ℕ) (why : Why)
        → IsCertificate bytes header entries → IsFault bytes line why → ⊥ }
{}
