//! The canonical text of an environment: one text for all the texts that spell it.
//!
//! One space stands between two items and none inside brackets at their ends; there is no comment and no line end. Every binder and every
//! definition of a fixpoint is named `_`, each run of applications is one `tApp`, a cast is the function applied that it is read as, each
//! universe is in normal form, and the universe Set plus 0 is `Set`. `specs/CanonicalTerms` and `specs/Canonical` are that text as tokens,
//! `specs/Layout` their bytes; `docs/DUMP_FORMAT.md` has the format.
//!
//! What is promised, by the clauses of `print_env`: all of the canonical text goes out (`all`), or exactly its first `written` bytes where the
//! sink's count of faults rose (`part`, `cause`); the text spells the environment that was printed (`spells`), and reading it gives that
//! environment again where no more than 1,000 of its brackets are open at once (`read_back`); only a cast can make that number greater than in
//! the text that was read (`nests`). It takes no memory. `write_shown` writes a term alone: whole, as it stands in the canonical text
//! (`proofs/Cuts`), or, with over 200 nodes, cut at the greatest depth that leaves no more (`all`; `cut_depth`, `is`); `write_shown_sort` writes a sort.
//!
//! The code is in layers: tokens to a sink (`writing`), names and sorts, terms, declarations and whole environments, and the text with its fault
//! (`text`). The first layer is public: certificates are written by it too. The proofs have the same text as a form of the grammar: its tokens and its meaning, names and levels in the same first-use order,
//! and the limits.
//!
//! Below stand `kio` (sinks), `dump_reader` (environments, and which text spells one), `dump_grammar`, `pc_terms` and `universe_levels`. Above stands
//! `text_rows`, whose rows are printed and read again, `explanations` and `cert_text`.
#![tactic(auto)]

ghost use Rattle.std.specs.Prelude.{OnOk, IfErr, Ok, ◌≤◌};
ghost use Rattle.std.specs.Io.KnownBytes.{Appends};
ghost use Rattle.kio.specs.Causes.{HasCause};
ghost use Rattle.kio.specs.Known.{StillTells};
ghost use Rattle.dump_reader.specs.Spelling.{Spells, IsVerdict};
ghost use Rattle.dump_reader.specs.Spelled.{IsSpelled};
ghost use Rattle.dump_printer.specs.Canonical.{canonical_text, canonical_tokens};
ghost use Rattle.dump_printer.specs.Nesting.{nesting};
ghost use Rattle.dump_printer.specs.Spelled.{NestsNoDeeper};
ghost use Rattle.dump_printer.specs.Writing.{HasGone};

mod cutting;
mod declarations;
mod sorts;
mod terms;
mod text;
mod writing;

pub use cutting::cut_depth;
use dump_reader::environment::RawEnv;
use kio::{Sink, WriteFault};
use text::write_text;
pub use text::{write_shown, write_shown_sort};
pub use writing::{Progress, atom, close, number, open};

/// Writes the canonical text of an environment that some text spells within the limits. It takes no memory.
///
/// A `WriteFault` comes only where the sink's count of faults rose in this call, and then exactly the first `written` bytes of the text went
/// out; that count stands still at the last number of its type. What was written spells the environment, and is read back as it where its
/// nesting is at most 1,000. Only casts can make that nesting greater than that of the text that the environment was read from.
pub fn print_env<K: Sink>(env: &RawEnv, out: &mut K) -> Result<(), WriteFault>
    requires spelled { IsSpelled env.now }
    ensures all { OnOk result (Appends (K.taken out.old) (K.taken out.new) (canonical_text env.now)) }
    ensures part { IfErr result (λ f. HasGone (K.taken out.old) (K.taken out.new) (canonical_text env.now) f.written) }
    ensures tells { StillTells (K.taken out.old) (K.taken out.new) }
    ensures cause { HasCause (K.faults out.old) (K.faults out.new) result }
    ensures spells { Spells (canonical_text env.now) env.now }
    ensures read_back { nesting (canonical_tokens env.now) ≤ 1000 → IsVerdict (canonical_text env.now) (Ok env.now) }
    ensures nests { NestsNoDeeper env.now }
{
    write_text(env, out)
}
