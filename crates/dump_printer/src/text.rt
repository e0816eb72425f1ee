//! A whole text to a sink.
ghost use Rattle.std.specs.Prelude.{OnOk, IfErr, []};
ghost use Rattle.std.specs.Io.KnownBytes.{Appends};
ghost use Rattle.kio.specs.Causes.{HasCause};
ghost use Rattle.kio.specs.Known.{StillTells};
ghost use Rattle.dump_printer.specs.Canonical.{canonical_text};
ghost use Rattle.dump_printer.specs.CanonicalTerms.{sort};
ghost use Rattle.dump_printer.specs.Cut.{shown_tokens};
ghost use Rattle.dump_printer.specs.Layout.{spaced};
ghost use Rattle.dump_printer.specs.Writing.{HasGone};

use crate::cutting::cut_depth;
use crate::declarations::write_environment;
use crate::sorts::write_sort;
use crate::terms::write_cut;
use crate::writing::Progress;
use dump_reader::environment::RawEnv;
use kio::{Sink, WriteFault};
use pc_terms::term::Term;
use universe_levels::sort::Sort;

/// Writes the canonical text of any environment, spelled by some text or not.
pub fn write_text<K: Sink>(env: &RawEnv, out: &mut K) -> Result<(), WriteFault>
    ensures all { OnOk result (Appends (K.taken out.old) (K.taken out.new) (canonical_text env.now)) }
    ensures part { IfErr result (λ f. HasGone (K.taken out.old) (K.taken out.new) (canonical_text env.now) f.written) }
    ensures tells { StillTells (K.taken out.old) (K.taken out.new) }
    ensures cause { HasCause (K.faults out.old) (K.faults out.new) result }
{
    let mut at = Progress {
        written: 0,
        tight: true,
        failed: false,
    };
    write_environment(env, out, &mut at);
    if at.failed {
        Err(WriteFault {
            written: at.written,
        })
    } else {
        Ok(())
    }
}

/// Writes a term as in the canonical text; of one with over 200 nodes no more than so many, with three dots where it goes deeper.
pub fn write_shown<K: Sink>(env: &RawEnv, t: &Term, out: &mut K) -> Result<(), WriteFault>
    ensures all { OnOk result (Appends (K.taken out.old) (K.taken out.new) (spaced (shown_tokens env.now.names env.now.level_names t.now))) }
{
    let mut at = Progress {
        written: 0,
        tight: true,
        failed: false,
    };
    write_cut(env, cut_depth(t), t, out, &mut at);
    if at.failed {
        Err(WriteFault {
            written: at.written,
        })
    } else {
        Ok(())
    }
}

/// Writes a sort as in the canonical text.
pub fn write_shown_sort<K: Sink>(env: &RawEnv, s: &Sort, out: &mut K) -> Result<(), WriteFault>
    ensures all { OnOk result (Appends (K.taken out.old) (K.taken out.new) (spaced (sort env.now.level_names s.now []))) }
{
    let mut at = Progress {
        written: 0,
        tight: true,
        failed: false,
    };
    write_sort(&env.level_names, s, out, &mut at);
    if at.failed {
        Err(WriteFault {
            written: at.written,
        })
    } else {
        Ok(())
    }
}
