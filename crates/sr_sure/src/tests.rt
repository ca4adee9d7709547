// Which text a name reads, and that nothing is written.
ghost use Rattle.std.specs.Prelude.{◌≡◌, ◌<◌, IfOk};
ghost use Rattle.sr_sure.specs.SureView.{outside_of};

use crate::SureDesk;
use sr_base::ByteList;
use sr_desk::{CallError, Desk, Slot};
use std::alloc::Global;
use std::test::Fail;

fn make_desk(alloc: Global) -> Result<SureDesk, Fail>
    ensures { IfOk result (λ d. (outside_of d).begun ≡ 0) }
{
    let mut formula = ByteList::new(alloc);
    formula.extend(b"abc")?;
    let mut proof = ByteList::new(alloc);
    proof.extend(b"de")?;
    Ok(SureDesk::new(formula, proof))
}

/// Begins a file and reads it once.
fn read_first(desk: &mut SureDesk, name: &str, buf: &mut [u8]) -> Result<usize, CallError>
    requires { (outside_of desk.old).begun < 8 }
{
    match desk.begin_read(name) {
        Ok(slot) => desk.read(slot, buf),
        Err(error) => Err(error),
    }
}

#[test]
fn a_name_reads_its_text(rt: HostRuntime) -> Result<(), Fail> {
    for (name, count, bytes) in [
        ("formula", 3, *b"abc_"),
        ("proof", 2, *b"de__"),
        ("other", 0, *b"____"),
    ] {
        let mut desk = make_desk(rt.alloc())?;
        let mut buf = *b"____";
        let got = read_first(&mut desk, name, &mut buf)?;
        assert_eq!(rt; (got, buf), (count, bytes));
    }
    Ok(())
}

#[test]
fn nothing_is_written(rt: HostRuntime) -> Result<(), Fail> {
    let mut desk = make_desk(rt.alloc())?;
    assert!(rt; desk.write(Slot::OUT, b"x").is_err());
    assert!(rt; desk.finish(Slot::OUT).is_err());
    assert_eq!(rt; desk.formula().as_slice(), b"abc".as_slice());
    assert_eq!(rt; desk.proof().as_slice(), b"de".as_slice());
    Ok(())
}
