//! Reading a text as the environment that it spells.
ghost use Rattle.std.specs.Prelude.{◌≡◌, ◌≢◌, ◌≤◌, ◌⊎◌, ℕ, List, [], length, take, Result, Ok, Err, IfOk, IfErr, IfSome};
ghost use Rattle.sexp_reader.specs.Lex.{tokens_of};
ghost use Rattle.dump_grammar.specs.declared.refusal.Foreign.{Foreign as Forms};
ghost use Rattle.dump_grammar.specs.declared.refusal.Limit.{Limit as Limits};
ghost use Rattle.dump_grammar.specs.declared.refusal.ReadRefusal.TheVariants.{Syntax, Unsupported, Limit as Past, Memory};
ghost use Rattle.dump_grammar.specs.Environments.{Dump, dump, env_of};
ghost use Rattle.dump_grammar.specs.Within.{DumpIsWithin};
ghost use Rattle.dump_grammar.specs.Judge.{texts};
ghost use Rattle.dump_grammar.specs.Law.{SyntaxAt, UnsupportedAt, LimitAt};
ghost use Rattle.dump_grammar.specs.FirstRefusal.{IsFirstRefusal};
ghost use Rattle.dump_reader.specs.declared.environment.RawEnv.{RawEnv as Env};
ghost use Rattle.dump_reader.specs.NumberedEnvironment.{numbered};
ghost use Rattle.dump_reader.specs.Front.{front_length as length_of_front, front_bytes};
ghost use Rattle.dump_reader.specs.Spelling.{Spells, IsVerdict, IsFrontVerdict, IsReadAs};

use crate::ahead::end_ahead;
use crate::environment::RawEnv;
use crate::front::front_length;
use crate::whole::read;
use dump_grammar::ReadRefusal;
use std::alloc::Global;

/// The environment that a text spells, or the first refusal of the text. Offsets are bytes from the start of the text. `Memory` comes only where
/// there is no memory.
pub fn read_env(alloc: Global, bytes: &[u8]) -> Result<RawEnv, ReadRefusal>
    ensures exact { IsVerdict bytes.now result }
    ensures spells { IfOk result (λ env. Spells bytes.now env) }
    ensures first { IfErr result (λ r. r ≢ Memory → IsFirstRefusal (length bytes.now) (tokens_of bytes.now) r) }
    ensures syntax { (o : ℕ) → result ≡ Err (Syntax o) → SyntaxAt (length bytes.now) (tokens_of bytes.now) o }
    ensures unsupported { (what : Forms) (o : ℕ) → result ≡ Err (Unsupported what o) → UnsupportedAt (tokens_of bytes.now) what o }
    ensures limit { (which : Limits) (o : ℕ) → result ≡ Err (Past which o) → LimitAt (tokens_of bytes.now) which o }
    ensures complete { (d : Dump) → texts (tokens_of bytes.now) ≡ dump d [] → DumpIsWithin d → (result ≡ Ok (numbered (env_of d))) ⊎ (result ≡ Err Memory) }
{
    read(alloc, bytes)
}

/// The environment that a text begins with, and the offset behind its last bracket, where that is found without counting brackets. `None` where it isn't,
/// where the bytes up to there aren't read, whatever they are refused for, or where there is no memory.
fn read_ahead(alloc: Global, bytes: &[u8]) -> Option<(RawEnv, usize)>
    ensures exact { IfSome result (λ read. IsFrontVerdict bytes.now (Ok read)) }
    ensures within { IfSome result (λ read. read.1 ≤ length bytes.now) }
{
    let end = end_ahead(bytes)?;
    match read(alloc, &bytes[..end]) {
        Ok(env) => Some((env, end)),
        Err(_) => None,
    }
}

/// The environment that a text begins with, and the offset behind its last bracket: the text up to the bracket that closes the first one is read as
/// `read_env` reads a whole text, with its refusals, and what follows that bracket isn't looked at. Where the first bracket isn't closed, or a token
/// before is refused, that is the whole text. Offsets are bytes from the start of the text. `Memory` comes only where there is no memory.
pub fn read_call(alloc: Global, bytes: &[u8]) -> Result<(RawEnv, usize), ReadRefusal>
    ensures exact { IsFrontVerdict bytes.now result }
    ensures behind { IfOk result (λ read. read.1 ≡ length_of_front bytes.now) }
    ensures within { IfOk result (λ read. read.1 ≤ length bytes.now) }
    ensures spells { IfOk result (λ read. Spells (take read.1 bytes.now) read.0) }
    ensures first { IfErr result (λ r. r ≢ Memory → IsFirstRefusal (length (front_bytes bytes.now)) (tokens_of (front_bytes bytes.now)) r) }
    ensures syntax { (o : ℕ) → result ≡ Err (Syntax o) → SyntaxAt (length (front_bytes bytes.now)) (tokens_of (front_bytes bytes.now)) o }
    ensures unsupported { (what : Forms) (o : ℕ) → result ≡ Err (Unsupported what o) → UnsupportedAt (tokens_of (front_bytes bytes.now)) what o }
    ensures limit { (which : Limits) (o : ℕ) → result ≡ Err (Past which o) → LimitAt (tokens_of (front_bytes bytes.now)) which o }
    ensures complete { (d : Dump) → texts (tokens_of (front_bytes bytes.now)) ≡ dump d [] → DumpIsWithin d → IsReadAs bytes.now d result }
{
    if let Some(read) = read_ahead(alloc, bytes) {
        return Ok(read);
    }
    let end = front_length(bytes);
    let env = read_env(alloc, &bytes[..end])?;
    Ok((env, end))
}

/// A text spells one environment at most.
pub fn meaning_is_unique()
    ensures unique { (bytes : List ℕ) (a b : Env) → Spells bytes a → Spells bytes b → a ≡ b }
{}
