//! The environment of a row as it was read, with the row's terms in its names and levels.
use crate::reading::made;
use dump_reader::declaration::RawDecl;
use dump_reader::environment::RawEnv;
use dump_reader::reading::read_env;
use pc_terms::term::{Term, Terms};
use row_files::{Case, Fault};

/// An environment whose last declarations stand for the terms of a row.
#[derive(Drop)]
pub struct Opened {
    pub raw: RawEnv,
    /// How many declarations are the row's own.
    pub declared: usize,
}

/// Whether the lines with a key are terms.
pub fn is_term(key: &str) -> bool {
    matches!(
        key,
        "term"
            | "argument"
            | "other"
            | "parameter"
            | "index"
            | "scrutinee"
            | "assumed"
            | "value"
            | "type"
    )
}

/// The text of the row's environment with each term of the row, in order, as the type of one more constant: names and levels keep their numbers.
fn text_with_terms(case: &Case) -> Result<Vec<u8>, Fault> {
    let mut text = Vec::new(case.alloc);
    case.put_front(&mut text)?;
    for field in case.row.fields() {
        if is_term(field.key) {
            text.extend_from_slice(b" (ConstantDecl _ ")?;
            case.named.put(&mut text, field.value)?;
            text.extend_from_slice(b" None)")?;
        }
    }
    text.extend_from_slice(b" (main (tSort Prop)))")?;
    Ok(text)
}

/// How many terms a row has.
fn count_terms(case: &Case) -> usize {
    let mut count: usize = 0;
    for field in case.row.fields() {
        if is_term(field.key) {
            count = count.saturating_add(1);
        }
    }
    count
}

impl Opened {
    /// Reads a row's environment with its terms.
    pub fn of(case: &Case) -> Result<Opened, Fault> {
        let text = text_with_terms(case)?;
        let Ok(raw) = read_env(case.alloc, text.as_slice()) else {
            return Err(Fault::Faulty("the text is not read"));
        };
        let declared = raw.decls.len().saturating_sub(count_terms(case));
        Ok(Opened { raw, declared })
    }

    /// The term at a place among the row's terms.
    pub fn at(&self, place: usize) -> Result<&Term, Fault> {
        let at = self.declared.saturating_add(place);
        match self.raw.decls.as_slice().get(at) {
            Some(RawDecl::Constant { ty, .. }) => Ok(ty),
            _ => Err(Fault::Faulty("a term is missing")),
        }
    }

    /// The first term with a key.
    pub fn term(&self, case: &Case, key: &str) -> Result<&Term, Fault> {
        let mut place: usize = 0;
        for field in case.row.fields() {
            if field.key == key {
                return self.at(place);
            }
            if is_term(field.key) {
                place = place.saturating_add(1);
            }
        }
        Err(Fault::Faulty("a term is missing"))
    }

    /// The terms with a key, the first first.
    pub fn terms(&self, case: &Case, key: &str) -> Result<Terms, Fault> {
        let mut terms = Terms::new(case.alloc);
        let mut place: usize = 0;
        for field in case.row.fields() {
            if field.key == key {
                let term = made(self.at(place)?.share())?;
                made(terms.push(term))?;
            }
            if is_term(field.key) {
                place = place.saturating_add(1);
            }
        }
        Ok(terms)
    }
}
