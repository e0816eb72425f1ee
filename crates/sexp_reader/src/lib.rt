//! The lowest layer of reading: bytes into tokens.
//!
//! A text is a sequence of tokens: `(`, `)` and atoms, which are one or more of the ASCII letters and digits and `_`, `.`,
//! `'`, `-`. Between tokens stand blanks (space, tab, LF, CR) and comments, each from `;` up to LF or the end. Two atoms need a
//! blank or a comment between them.
//!
//! What is promised: the meaning of a text is its list of tokens with their offsets (`tokens_of` of `specs/Lex.antt`), in
//! which a byte of no token stands as `Stray`. `tokens_of_is_the_tokenization` proves that this list is the only one that the
//! sentences above allow (`specs/Tokenization.antt`). A `Tokens` gives that list from the front: `answer` says each answer,
//! with Stray, NameBytes and Nesting exactly where they come, `ok` what is left, `gave` that a token's text is the slice of
//! its span, `rises` that spans rise, and `err` that after a fault the same fault is answered again. No call takes memory.
//!
//! Nothing stands below but std. Above stand the readers of dumps, whose grammar is a grammar of these tokens.
#![tactic(auto)]

ghost use Rattle.std.specs.Prelude.{◌≡◌, ℕ, ◌+◌, ◌<◌, ◌≤◌, length, drop, false, true, OnOk, OnErr, get_or, nat_eq, slice_range};
ghost use Rattle.sexp_reader.specs.Tokenization.{IsTheTokenization};
ghost use Rattle.sexp_reader.specs.Lex.{is_blank as blank, is_atom_byte as atom_byte, atom_len, lex, answer, rest, nesting_after, left, tokens_of};

/// The most bytes that an atom may have. A longer one is refused as NameBytes.
pub const MAX_ATOM: usize = 255;
/// The deepest that brackets may stand in one another. A bracket that opens a deeper nesting is refused as Nesting.
pub const MAX_NESTING: usize = 1000;

/// What a token is: a bracket that opens, one that closes, or an atom.
#[derive(Clone, Copy, Debug, PartialEq, Eq)]
pub enum TokenKind {
    Open,
    Close,
    Atom,
}

/// A token by its span: the offset of its first byte, and the offset behind its last. Offsets are bytes from the start of the text.
#[derive(Clone, Copy, Debug, PartialEq, Eq)]
pub struct Token {
    pub kind: TokenKind,
    pub start: usize,
    pub end: usize,
}

/// Why there is no next token. The offset is that of the byte, of the atom's first byte, or of the bracket, from the start of
/// the text.
#[derive(Clone, Copy, Debug, PartialEq, Eq)]
pub enum TokenFault {
    /// A byte that belongs to no token, blank or comment.
    Stray { offset: usize },
    /// An atom of more than 255 bytes.
    NameBytes { offset: usize },
    /// The opening bracket that makes a nesting of 1,001.
    Nesting { offset: usize },
}

fn is_blank(b: u8) -> bool
    ensures blank { result ≡ blank b }
{
    b == b' ' || b == b'\t' || b == b'\n' || b == b'\r'
}

/// For each byte `1` where it is one of an atom, and else `0`.
static ATOM_BYTES: [u8; 256] = *b"\
    00000000000000000000000000000000\
    00000001000001101111111111000000\
    01111111111111111111111111100001\
    01111111111111111111111111100000\
    00000000000000000000000000000000\
    00000000000000000000000000000000\
    00000000000000000000000000000000\
    00000000000000000000000000000000";

/// Whether the byte is one of an atom.
#[inline(always)]
fn is_atom_byte(b: u8) -> bool
    ensures atom { result ≡ atom_byte b }
{
    ATOM_BYTES[b as usize] == b'1'
}

/// The offset behind a comment in which `from` stands: behind the LF that ends it, or the text's length.
fn comment_end(bytes: &[u8], from: usize) -> usize
    requires { from ≤ length bytes.now }
    ensures within { (from ≤ result) × (result ≤ length bytes.now) }
    ensures same { lex from true (drop from bytes.now) ≡ lex result false (drop result bytes.now) }
{
    let mut at = from;
    while at < bytes.len() {
        if bytes[at] == b'\n' {
            return at + 1;
        }
        at += 1;
    }
    at
}

/// The offset of the first byte from `from` on that is neither blank nor in a comment, or the text's length.
fn skip(bytes: &[u8], from: usize) -> usize
    requires { from ≤ length bytes.now }
    ensures within { result ≤ length bytes.now }
    ensures same { lex from false (drop from bytes.now) ≡ lex result false (drop result bytes.now) }
    ensures stops { result < length bytes.now → (blank (get_or bytes.now result 0) ≡ false) × (nat_eq (get_or bytes.now result 0) 59 ≡ false) }
{
    let mut at = from;
    while at < bytes.len() {
        let b = bytes[at];
        if b == b';' {
            at = comment_end(bytes, at + 1);
        } else if is_blank(b) {
            at += 1;
        } else {
            return at;
        }
    }
    at
}

/// The offset behind the atom bytes that stand from `from` on, where one stands.
fn atom_end(bytes: &[u8], from: usize) -> usize
    requires inside { from < length bytes.now }
    requires atom { atom_byte (get_or bytes.now from 0) ≡ true }
    ensures within { result ≤ length bytes.now }
    ensures end { result ≡ from + atom_len (drop from bytes.now) }
{
    let mut at = from + 1;
    while at < bytes.len() {
        if !is_atom_byte(bytes[at]) {
            return at;
        }
        at += 1;
    }
    at
}

fn token_at(kind: TokenKind, start: usize, end: usize) -> Token
    ensures parts { result ≡ record { kind = kind; start = start; «end» = end } }
{
    Token { kind, start, end }
}

/// The tokens of a text, one after another from its front. Contracts see it by three words of `specs/Stream.antt`: `source`,
/// the bytes of the text; `stream`, the tokens that it has still to give; `depth`, how many brackets are open.
#[derive(Drop)]
pub struct Tokens<'a> {
    bytes: &'a [u8],
    at: usize,
    nesting: usize,
    ghost in_range: { at ≤ length bytes.now },
}

impl<'a> Tokens<'a> {
    ghost use Rattle.sexp_reader.specs.Stream.{source, stream, depth, Gave, Rises};

    /// The tokens of `bytes`, none of which is given yet. It takes no memory and has no refusal.
    pub fn new(bytes: &'a [u8]) -> Self
        ensures tokens { stream result ≡ tokens_of bytes.now }
        ensures outside { depth result ≡ 0 }
        ensures text { source result ≡ bytes.now }
    {
        Tokens {
            bytes,
            at: 0,
            nesting: 0,
        }
    }

    /// The next token, or None at the end of the text. It takes no memory.
    ///
    /// Stray comes exactly at a byte that belongs to no token, blank or comment; NameBytes exactly at an atom of more than 255
    /// bytes; Nesting exactly at the opening bracket that makes a nesting of 1,001. A bracket that closes where none is open is
    /// a token as any other, and no bracket is open after it either. After a fault the same fault is answered again.
    pub fn next(&mut self) -> Result<Option<Token>, TokenFault>
        ensures answer { result ≡ answer (depth self.old) (stream self.old) }
        ensures ok { OnOk result ((stream self.new ≡ rest (stream self.old)) × (depth self.new ≡ nesting_after (depth self.old) (stream self.old))) }
        ensures rises { Rises result (stream self.new) }
        ensures gave { Gave result (source self.old) (stream self.old) (stream self.new) }
        ensures same { source self.new ≡ source self.old }
        ensures err { OnErr result (self.new ≡ self.old) }
    {
        let start = skip(self.bytes, self.at);
        if start == self.bytes.len() {
            self.at = start;
            return Ok(None);
        }
        let b = self.bytes[start];
        if b == b'(' {
            if self.nesting >= MAX_NESTING {
                return Err(TokenFault::Nesting { offset: start });
            }
            self.nesting += 1;
            self.at = start + 1;
            return Ok(Some(token_at(TokenKind::Open, start, start + 1)));
        }
        if b == b')' {
            self.nesting = self.nesting.saturating_sub(1);
            self.at = start + 1;
            return Ok(Some(token_at(TokenKind::Close, start, start + 1)));
        }
        if is_atom_byte(b) {
            let end = atom_end(self.bytes, start);
            if end - start > MAX_ATOM {
                return Err(TokenFault::NameBytes { offset: start });
            }
            self.at = end;
            return Ok(Some(token_at(TokenKind::Atom, start, end)));
        }
        Err(TokenFault::Stray { offset: start })
    }

    /// The bytes of a token, by its span. It takes no memory.
    pub fn text(&self, token: Token) -> &'a [u8]
        requires { (token.start ≤ token.end) × (token.end ≤ length (source self.now)) }
        ensures slice { result.now ≡ slice_range (source self.now) token.start token.end }
    {
        &self.bytes[token.start..token.end]
    }

    /// How many bytes the text has.
    pub fn len(&self) -> usize
        ensures bytes { result ≡ length (source self.now) }
    {
        self.bytes.len()
    }
}

/// The tokens of any text are `tokens_of` its bytes: the text is made of those tokens with blanks and comments between them,
/// two atoms never touch, and it is made of no other tokens.
pub fn tokens_of_is_the_tokenization()
    ensures law { IsTheTokenization }
{}

#[cfg(test)]
mod tests {
    use super::*;
    use std::test::Fail;

    #[test]
    fn gives_tokens_with_their_spans(rt: HostRuntime) {
        let mut tokens = Tokens::new(b"(env ; x)\n\tA.b'-_9)");
        let word = Token {
            kind: TokenKind::Atom,
            start: 1,
            end: 4,
        };
        assert_eq!(rt; tokens.text(word), b"env".as_slice());
        assert_eq!(rt; tokens.len(), 19);
        for (kind, start, end) in [
            (TokenKind::Open, 0, 1),
            (TokenKind::Atom, 1, 4),
            (TokenKind::Atom, 11, 18),
            (TokenKind::Close, 18, 19),
        ] {
            assert_eq!(rt; tokens.next(), Ok(Some(Token { kind, start, end })));
        }
        assert_eq!(rt; tokens.next(), Ok(None));
        assert_eq!(rt; tokens.next(), Ok(None));
    }

    /// What the call after so many tokens answers, and what the call after that one answers.
    fn after(text: &[u8], count: usize) -> [Result<Option<Token>, TokenFault>; 2] {
        let mut tokens = Tokens::new(text);
        for _ in 0..count {
            let _given = tokens.next();
        }
        [tokens.next(), tokens.next()]
    }

    #[test]
    fn refuses_at_the_place_and_again(rt: HostRuntime) -> Result<(), Fail> {
        let alloc = rt.alloc();
        let long = vec![in alloc; b'a'; 256]?;
        let deep = vec![in alloc; b'('; 1001]?;
        for (text, count, fault) in [
            (b"a \"b\"".as_slice(), 1, TokenFault::Stray { offset: 2 }),
            (b"(\xc3\xa9".as_slice(), 1, TokenFault::Stray { offset: 1 }),
            (b"; a\n{".as_slice(), 0, TokenFault::Stray { offset: 4 }),
            (long.as_slice(), 0, TokenFault::NameBytes { offset: 0 }),
            (deep.as_slice(), 1000, TokenFault::Nesting { offset: 1000 }),
        ] {
            assert_eq!(rt; after(text, count), [Err(fault), Err(fault)]);
        }
        let atom = Token {
            kind: TokenKind::Atom,
            start: 0,
            end: 255,
        };
        assert_eq!(rt; after(&long[..255], 0), [Ok(Some(atom)), Ok(None)]);
        Ok(())
    }
}
