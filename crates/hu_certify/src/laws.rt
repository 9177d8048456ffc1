//! What holds of every certificate that a base itself makes. These calls do nothing: their contracts are the laws.

ghost use Rattle.hu_certify.specs.Laws.{CertificateIsAccepted, CertificateIsFaultless};

/// The text that is written for the records of a run and a minimum is free of the faults that are told by what a text says,
/// however long it is.
pub fn law_of_faultless_texts()
    ensures { CertificateIsFaultless }
{}

/// The text that is written for the records of a run and a minimum is accepted, where it isn't too long.
pub fn law_of_certificate_texts()
    ensures { CertificateIsAccepted }
{}
