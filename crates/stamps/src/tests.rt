//! What no clause says: that one place is known again, and that two are told apart.
use crate::Stamp;
use std::test::Fail;

#[test]
fn knows_one_place_again(rt: HostRuntime) -> Result<(), Fail> {
    let a = Stamp::new();
    let b = Stamp::new();
    assert!(rt; a.same(&a));
    assert!(rt; !a.same(&b));
    assert!(rt; b.same(&b));
    assert!(rt; !b.same(&a));
    assert!(rt; a.same(&a));
    Ok(())
}
