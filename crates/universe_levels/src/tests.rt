//! What no clause says: that each call has an answer where memory is ample, at values from outside.
use crate::level::{Level, LevelExpr};
use crate::sort::Sort;
use crate::universe::{Universe, UniverseFault};
use std::alloc::Global;
use std::test::Fail;

fn expr(level: u32, add: u32) -> LevelExpr {
    LevelExpr {
        level: Level(level),
        add,
    }
}

/// The types of one level expression.
fn types(alloc: Global, level: u32, add: u32) -> Result<Sort, UniverseFault> {
    Ok(Sort::Of(Universe::of(alloc, [expr(level, add)].as_slice())?))
}

#[test]
fn keeps_the_greatest_addition_of_each_level(rt: HostRuntime) -> Result<(), Fail> {
    let given = [
        expr(2, 1),
        expr(1, 0),
        expr(2, 5),
        expr(0, 9),
        expr(1, 3),
        expr(2, 4),
    ];
    let kept = Universe::of(rt.alloc(), given.as_slice())?;
    assert_eq!(rt;
        kept.parts(),
        [expr(0, 9), expr(1, 3), expr(2, 5)].as_slice()
    );
    let other = Universe::of(rt.alloc(), [expr(3, 0), expr(1, 7)].as_slice())?;
    let joined = kept.join(rt.alloc(), &other)?;
    let want = [expr(0, 9), expr(1, 7), expr(2, 5), expr(3, 0)];
    assert_eq!(rt; joined.parts(), want.as_slice());
    assert!(rt; joined.share(rt.alloc())?.same(&joined));
    assert!(rt; !joined.same(&kept));
    Ok(())
}

#[test]
fn refuses_a_universe_without_parts(rt: HostRuntime) {
    let fault = Universe::of(rt.alloc(), [].as_slice()).err();
    assert_eq!(rt; fault, Some(UniverseFault::Empty));
}

#[test]
fn refuses_an_addition_past_the_limit(rt: HostRuntime) -> Result<(), Fail> {
    let most = types(rt.alloc(), 0, 4294967295)?;
    assert_eq!(rt;
        most.super_of(rt.alloc()).err(),
        Some(UniverseFault::TooBig)
    );
    let less = types(rt.alloc(), 0, 4294967294)?;
    assert!(rt; less.super_of(rt.alloc())?.same(&most));
    let of_prop = Sort::Prop.super_of(rt.alloc())?;
    assert!(rt; of_prop.same(&types(rt.alloc(), 0, 1)?));
    Ok(())
}

#[test]
fn finds_the_sort_of_a_product(rt: HostRuntime) -> Result<(), Fail> {
    let set = types(rt.alloc(), 0, 0)?;
    let one = types(rt.alloc(), 1, 0)?;
    let both = Sort::Of(Universe::of(rt.alloc(), [expr(1, 0), expr(0, 0)].as_slice())?);
    assert!(rt; Sort::product(rt.alloc(), &set, &one)?.same(&both));
    assert!(rt; Sort::product(rt.alloc(), &Sort::Prop, &one)?.same(&one));
    assert!(rt; Sort::product(rt.alloc(), &one, &Sort::Prop)?.same(&Sort::Prop));
    assert!(rt; one.share(rt.alloc())?.same(&one));
    Ok(())
}
