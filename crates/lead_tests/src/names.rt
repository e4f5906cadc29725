//! Names that are drawn.
use gu_lead::draw_name;
use std::test::Fail;

#[test]
fn names_are_drawn_anew_each_time(rt: HostRuntime) -> Result<(), Fail> {
    let first = draw_name(&rt, rt.alloc())?.ok_or("random bytes")?;
    let second = draw_name(&rt, rt.alloc())?.ok_or("random bytes")?;
    assert!(rt; first.as_bytes().starts_with(b"desk-"));
    assert_eq!(rt; first.as_bytes().len(), 37);
    assert!(rt; first.as_bytes() != second.as_bytes());
    Ok(())
}
