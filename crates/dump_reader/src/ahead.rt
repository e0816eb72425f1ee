//! Where the front of a text ends, found without counting brackets, where the text goes on as the job `cert` writes it: no comment stands in the
//! front, and the text's last bracket that opens begins a line behind it.
//!
//! So the front is a guess, which holds if the bytes up to there are an environment: its brackets are all closed at its end and not before.
ghost use Rattle.std.specs.Prelude.{◌≡◌, ℕ, ◌<◌, ◌≤◌, get_or, length, true, IfSome};
ghost use Rattle.sexp_reader.specs.Lex.{is_blank as blank};
ghost use Rattle.dump_reader.specs.Ahead.{IsBehindBracket};

use crate::front::is_blank;
use memchr::{memchr, memrchr};

/// The offset behind the last byte before `from` that is no blank; 0 where there is none.
fn behind_blanks(bytes: &[u8], from: usize) -> usize
    requires { from ≤ length bytes.now }
    ensures within { result ≤ from }
    ensures blanks { (k : ℕ) → result ≤ k → k < from → blank (get_or bytes.now k 0) ≡ true }
{
    let mut at = from;
    while at > 0 {
        if !is_blank(bytes[at - 1]) {
            return at;
        }
        at -= 1;
    }
    at
}

/// The offset behind the bracket that closes last before the line that begins with the text's last bracket that opens. `None` where that bracket begins no
/// line or the first one, a byte before it begins a comment, or another token stands between.
pub(crate) fn end_ahead(bytes: &[u8]) -> Option<usize>
    ensures behind { IfSome result (λ «end». IsBehindBracket bytes.now «end») }
{
    let open = memrchr(b'(', bytes)?;
    if open == 0 || bytes[open - 1] != b'\n' || memchr(b';', &bytes[..open]).is_some() {
        return None;
    }
    let end = behind_blanks(bytes, open);
    if end == 0 || bytes[end - 1] != b')' {
        return None;
    }
    Some(end)
}
