//! The text of an environment with its certificate behind it is read as both.
//!
//! What is written of an environment and of a certificate, the canonical text and LF and the certificate's text and LF, is read back: its front, up to the bracket that closes the first one, is the
//! canonical text, which is read as the environment where it nests at most 1,000 deep, and what stands behind is read as the certificate (`certified_texts_are_read`, clause `read`).
//!
//! Below stand `sexp_reader` (which tokens a text has), `dump_reader` (the front of a text), `dump_printer` (the canonical text) and `cert_text`;
//! above stand `driver`, whose job `cert` writes this text, and `answer_laws`.
#![tactic(auto)]

ghost use Rattle.certified_texts.specs.ReadBack.{CertifiedTextsAreRead};

/// The canonical text of an environment and the text of a certificate, each with LF, are read as that environment, at the front, and as that certificate behind it.
pub fn certified_texts_are_read()
    ensures read { CertifiedTextsAreRead }
{}
