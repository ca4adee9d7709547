// The literals of the principle: a pigeon sits in a hole, or doesn't.
ghost use Rattle.std.specs.Prelude.{◌≡◌, ◌≤◌, ◌++◌, ◌∷◌, [], OnOk};
ghost use Rattle.sr_scan.specs.Written.{written_literals};
ghost use Rattle.sr_holes.specs.Holes.{seat, in_hole, not_in_hole};
ghost use Rattle.sr_holes.specs.Places.{IsPlace};

use sr_base::{ByteList, Form, NoMemory};
use sr_scan::put_number;

/// The most holes for which the formula and the proof are made.
pub const MOST_HOLES: u32 = 60;

/// The variable that is true where a pigeon sits in a hole.
fn seat(holes: u32, pigeon: u32, hole: u32) -> u32
    requires { IsPlace holes pigeon hole }
    ensures value { result ≡ seat holes pigeon hole }
    ensures small { result ≤ 3660 }
{
    (pigeon - 1) * holes + hole
}

/// Adds the literal that a pigeon sits in a hole.
pub(crate) fn put_in_hole(
    out: &mut ByteList,
    holes: u32,
    pigeon: u32,
    hole: u32,
) -> Result<(), NoMemory>
    requires { IsPlace holes pigeon hole }
    ensures { OnOk result (out.new ≡ out.old ++ written_literals Form.Text (in_hole holes pigeon hole ∷ [])) }
{
    put_number(Form::Text, out, i64::from(seat(holes, pigeon, hole)))
}

/// Adds the literal that a pigeon doesn't sit in a hole.
pub(crate) fn put_not_in_hole(
    out: &mut ByteList,
    holes: u32,
    pigeon: u32,
    hole: u32,
) -> Result<(), NoMemory>
    requires { IsPlace holes pigeon hole }
    ensures { OnOk result (out.new ≡ out.old ++ written_literals Form.Text (not_in_hole holes pigeon hole ∷ [])) }
{
    put_number(Form::Text, out, -i64::from(seat(holes, pigeon, hole)))
}
