// Writing a file whole.
ghost use Rattle.std.specs.Prelude.{◌<◌, OnOk, OnErr};
ghost use Rattle.sr_files.specs.Written.{IsWritten, IsCutOff};

use sr_desk::{CallError, Desk, put_all};

/// Begins to write a file, writes all the bytes, and finishes it.
///
/// # Errors
///
/// [`CallError`] where a call on the file failed. The file is missing then, or holds a prefix of the bytes.
pub fn write_file<D: Desk>(desk: &mut D, name: &str, bytes: &[u8]) -> Result<(), CallError>
    requires { (D.outside desk.old).begun < 8 }
    ensures ok { OnOk result (IsWritten name.now bytes.now (D.outside desk.old) (D.outside desk.new)) }
    ensures err { OnErr result (IsCutOff name.now bytes.now (D.outside desk.old) (D.outside desk.new)) }
{
    match desk.begin_write(name) {
        Err(_) => Err(CallError),
        Ok(slot) => match put_all(desk, slot, bytes) {
            Err(error) => Err(error),
            Ok(()) => match desk.finish(slot) {
                Ok(()) => Ok(()),
                Err(_) => Err(CallError),
            },
        },
    }
}
