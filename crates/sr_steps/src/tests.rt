// Steps with and without a witness.
use crate::StepTable;
use std::test::Fail;

#[test]
fn the_step_added_last_comes_first(rt: HostRuntime) -> Result<(), Fail> {
    let mut table = StepTable::new(rt.alloc());
    table.push(15, &[13, 1, 4])?;
    table.begin(13)?;
    table.add_group(9, &[5])?;
    table.add_group(4, &[3, 2])?;
    table.sort_groups();
    table.push(12, &[])?;
    assert_eq!(rt; (table.len(), table.id(0), table.id(2)), (3, 12, 15));
    assert_eq!(rt; table.prefix(2), [13, 1, 4].as_slice());
    assert_eq!(rt;
        (table.is_by_witness(0), table.is_by_witness(1)),
        (false, true)
    );
    assert_eq!(rt; (table.group_count(1), table.group_count(2)), (2, 0));
    assert_eq!(rt; (table.group_id(1, 0), table.group_id(1, 1)), (4, 9));
    assert_eq!(rt; table.group_hints(1, 0), [3, 2].as_slice());
    Ok(())
}

#[test]
fn a_group_may_have_many_hints(rt: HostRuntime) -> Result<(), Fail> {
    let mut table = StepTable::new(rt.alloc());
    let hints = [7; 65_536];
    table.begin(13)?;
    table.add_group(9, &hints[2..])?;
    table.add_group(4, &hints[1..])?;
    table.add_group(5, &hints)?;
    table.sort_groups();
    assert!(rt; table.group_hints(0, 0) == &hints[1..]);
    assert!(rt; table.group_hints(0, 1) == &hints[..]);
    assert!(rt; table.group_hints(0, 2) == &hints[2..]);
    Ok(())
}
