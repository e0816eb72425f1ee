//! The text of typing certificates: `(cert 1 item*)`, where an item is a number, `s`, `c`, `l N`, `r N` or `k`.
//!
//! The definitions: `specs/CertText` has a certificate's tokens and its bytes with one space between parts, `CertReading` reading as a function of
//! a text's tokens, with the first refusal. The code: `scan` (tokens from an offset on), `number`, `reading` and `printing`.
//!
//! What is promised: `read_cert` answers exactly what reading as a function answers, refusals with their offsets included (`exact`), so what is
//! read is what the tokens spell (`spells`); `print_cert` writes the certificate's text (`all`), or exactly its first `written` bytes where the
//! sink's count of faults rose (`part`, `cause`), and that text, whose numbers can be held (`small`), is read back as the certificate behind any bytes (`read_back`). The law
//! `certificates_are_read` says that all that tokens spell is read (`exact`), and that a wrong token is the first that continues no text of a
//! certificate (`first`).
//!
//! Below stand `kio` (sinks), `sexp_reader` (which tokens a text has), `dump_grammar` and `dump_printer` (numbers, spacing, tokens to a sink) and
//! `cert_rules` (items); above, `certified_texts`, `driver` and `text_rows`.
#![tactic(auto)]

ghost use Rattle.cert_text.specs.TextLaws.{ReadingIsExact, WrongIsFirst, PrintedIsRead};

mod number;
mod printing;
mod reading;
mod refusal;
mod scan;

pub use printing::print_cert;
pub use reading::read_cert;
pub use refusal::CertText;

/// What is read of a text, from an offset on, is a certificate exactly where the tokens from there on are those of the certificate and its
/// numbers are at most 4,294,967,295; a wrong token is the first that continues no such text; and what is printed of a certificate is read as it,
/// wherever it stands in a text that ends with it.
pub fn certificates_are_read()
    ensures exact { ReadingIsExact }
    ensures first { WrongIsFirst }
    ensures printed { PrintedIsRead }
{}
