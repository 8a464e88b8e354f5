//! The law of certificates' texts.

ghost use Rattle.std.specs.Prelude.{◌≡◌, ◌<◌, ◌^◌, All, IsTrue, Ok};
ghost use Rattle.sf_model.specs.Paths.{all_lead};
ghost use Rattle.sf_certificate.specs.declared.cert.Cert.{Cert};
ghost use Rattle.sf_certificate.specs.Said.{said_by};
ghost use Rattle.sf_cert_text.specs.Paths.{FitsPaths};
ghost use Rattle.sf_cert_text.specs.Reading.{cert_read};
ghost use Rattle.sf_cert_text.specs.Text.{cert_text, FitsTag};

/// The text of a certificate whose paths lead from pad to pad is read as that certificate: its numbers are those
/// of the machine's types.
pub fn texts_are_read_back()
    ensures { (cert : Cert) → cert.cost < 2 ^ 64 → cert.bound < 2 ^ 64 → FitsPaths cert.paths → All FitsTag cert.tags
        → IsTrue (all_lead cert.paths) → cert_read cert.blocks (cert_text cert) ≡ Ok (said_by cert) }
{}
