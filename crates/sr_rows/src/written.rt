// Formulas, written.
use crate::case::FOUR;
use sr_base::Limits;
use sr_cnf::{read_formula, write_formula};
use sr_desk::{ByteReader, Desk, MemoryDesk};
use std::test::Fail;

#[test]
fn a_selection_is_written_in_its_order(rt: HostRuntime) -> Result<(), Fail> {
    let alloc = rt.alloc();
    let limits = Limits::shipped();
    let mut desk = MemoryDesk::new(alloc)?;
    desk.put_file("f", FOUR.as_bytes())?;
    desk.restart();
    let slot = desk.begin_read("f").map_err(|_| "no file")?;
    let mut reader = ByteReader::new(alloc, slot, limits.bytes())?;
    let formula = read_formula(alloc, &mut reader, &mut desk, &limits).map_err(|_| "no formula")?;
    if formula.count() != 4 {
        return Err(Fail::new(format_args!("{} clauses", formula.count())));
    }
    let text = write_formula(alloc, &formula, &[1, 4])?;
    if text.as_slice() != b"p cnf 2 2\n1 2 0\n-1 -2 0\n".as_slice() {
        return Err(Fail::new(format_args!("other bytes")));
    }
    Ok(())
}
