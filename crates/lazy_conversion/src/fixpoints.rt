//! Fixpoints: the types of their definitions, then the bodies.
ghost use Rattle.std.specs.Prelude.{◌≡◌, ◌+◌};
ghost use Rattle.calculus_rules.specs.Context.{values};
ghost use Rattle.pc_rules.specs.Entailment.{test_of};
ghost use Rattle.pc_rules.specs.DirectedRun.{run_all, most_nested};
ghost use Rattle.pc_rules.specs.DirectedComparison.{compare, each_equal, entering, lifted_types};
ghost use Rattle.conversion.specs.Comparable.{AreComparable};
ghost use Rattle.lazy_conversion.specs.Lists.{read_list};
ghost use Rattle.lazy_conversion.specs.Stuck.{defs_of, type_list, body_list, recursive_equal, DefsBeyond};
ghost use Rattle.lazy_conversion.specs.Tracks.{Tracks};

use crate::assumptions::assume_definitions;
use crate::comparison::LazyCompare;
use crate::lists::Parts;
use crate::stuck::Recursive;
use conversion::definitions::{bodies, types};
use pc_rules::meter::Meter;
use pc_rules::stop::Halt;
use pc_terms::term::Terms;
use reduce_machine::setting::Setting;
use std::alloc::Global;

/// The types of the definitions of a fixpoint, which are given, under its bindings.
fn type_parts<'a>(f: Recursive<'a>, terms: &'a Terms) -> Parts<'a>
    requires types { terms.now ≡ type_list f.defs.now }
    ensures is { read_list result ≡ type_list (defs_of f.entry) }
{
    Parts {
        terms,
        under: 0,
        env: f.env,
    }
}

/// The bodies of the definitions of a fixpoint, which are given, under its bindings, each below a variable for each definition.
fn body_parts<'a>(f: Recursive<'a>, terms: &'a Terms) -> Parts<'a>
    requires bodies { terms.now ≡ body_list f.defs.now }
    ensures is { read_list result ≡ body_list (defs_of f.entry) }
{
    Parts {
        terms,
        under: f.defs.len() as u64,
        env: f.env,
    }
}

impl LazyCompare {
    /// The parts of two fixpoints: the types of their definitions, then the bodies.
    #[cycle(compare)]
    #[inline(never)]
    pub(crate) fn fixpoints(
        &self,
        alloc: Global,
        at: &Setting<'_>,
        room: u32,
        f: Recursive<'_>,
        g: Recursive<'_>,
        m: &mut Meter,
    ) -> Result<(), Halt>
        requires nest { room + m.old.nest ≡ most_nested }
        requires types { AreComparable at.now.env.now (values at.now.ctx.now) (type_list (defs_of f)) (type_list (defs_of g)) }
        requires bodies { AreComparable at.now.env.now (values at.now.ctx.now) (body_list (defs_of f)) (body_list (defs_of g)) }
        ensures tracks { Tracks (values at.now.ctx.now) (DefsBeyond (defs_of f.entry) (defs_of g.entry)) (recursive_equal (compare at.now.env.now (test_of at.now.env.now) room) (defs_of f.entry) (defs_of g.entry)) result m.old m.new }
    {
        let left = types(alloc, f.defs)?;
        let right = types(alloc, g.defs)?;
        let ts = type_parts(f, &left);
        let us = type_parts(g, &right);
        self.each(alloc, at, room, ts, us, m)?;
        self.bodies(alloc, at, room, f, g, m)
    }

    /// The bodies of two fixpoints, under as many entries as the left one has definitions.
    #[cycle(compare)]
    fn bodies(
        &self,
        alloc: Global,
        at: &Setting<'_>,
        room: u32,
        f: Recursive<'_>,
        g: Recursive<'_>,
        m: &mut Meter,
    ) -> Result<(), Halt>
        requires nest { room + m.old.nest ≡ most_nested }
        requires bodies { AreComparable at.now.env.now (values at.now.ctx.now) (body_list (defs_of f)) (body_list (defs_of g)) }
        ensures tracks { Tracks (values at.now.ctx.now) (DefsBeyond (defs_of f.entry) (defs_of g.entry)) (λ c. entering c (lifted_types 0 (type_list (defs_of f.entry))) (λ d. run_all (each_equal (compare at.now.env.now (test_of at.now.env.now) room) d (body_list (defs_of f.entry)) (body_list (defs_of g.entry))))) result m.old m.new }
    {
        let left = bodies(alloc, f.defs)?;
        let right = bodies(alloc, g.defs)?;
        let inner = assume_definitions(alloc, at.ctx, f.defs)?;
        let setting = Setting::new(at.env, &inner, at.tables);
        let ts = body_parts(f, &left);
        let us = body_parts(g, &right);
        self.each(alloc, &setting, room, ts, us, m)
    }
}
