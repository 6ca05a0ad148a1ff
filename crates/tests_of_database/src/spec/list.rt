//! Lists.
use rrd_spec::List;
use std::test::Fail;

#[test]
fn lists(rt: HostRuntime) -> Result<(), Fail> {
    let mut list = List::new(rt.alloc());
    assert_eq!(rt; list.len(), 0);
    for item in [3u8, 1, 2] {
        list.push(item)?;
    }
    assert_eq!(rt; list.as_slice(), [3, 1, 2].as_slice());
    assert_eq!(rt; list.len(), 3);
    assert_eq!(rt; *list.get(1), 1);
    Ok(())
}
