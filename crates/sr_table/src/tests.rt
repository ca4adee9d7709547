// A table and a set on far numbers.
use crate::{IdSet, IdTable};
use std::test::Fail;

#[test]
fn far_numbers_are_kept_apart(rt: HostRuntime) -> Result<(), Fail> {
    let mut table = IdTable::new(rt.alloc())?;
    table.set(1, 7)?;
    table.set(2_147_483_647, 9)?;
    assert_eq!(rt;
        (table.get(1), table.get(4_097), table.get(2_147_483_647)),
        (7, 0, 9)
    );
    table.unset(1);
    assert_eq!(rt; table.get(1), 0);
    Ok(())
}

#[test]
fn numbers_come_once(rt: HostRuntime) -> Result<(), Fail> {
    let mut set = IdSet::new(rt.alloc())?;
    set.add_all(&[9, 3, 9, 5_000])?;
    assert_eq!(rt; set.as_slice(), [9, 3, 5_000].as_slice());
    set.sort();
    assert_eq!(rt; set.as_slice(), [3, 9, 5_000].as_slice());
    set.clear()?;
    set.add_all(&[9])?;
    assert_eq!(rt; set.as_slice(), [9].as_slice());
    Ok(())
}
