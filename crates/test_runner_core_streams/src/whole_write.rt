// Writing all of some bytes.
ghost use Rattle.std.specs.Prelude.{◌≡◌, ◌^◌, ◌<◌, true, OnErr, is_err};
ghost use Rattle.test_runner_core_streams.specs.Streams.{TakesAll, failures_after};

use super::traits::ReportWriter;
use std::io;
use std::io::ErrorKind;

/// Writes all of `bytes`, in as many calls as it takes. It fails where a call fails, with its
/// cause, and as `ErrorKind::WriteZero` where a call takes none of what is left; the writer then
/// took a prefix of `bytes`. After a failed call there is no other.
pub fn write_all<W: ReportWriter>(writer: &mut W, bytes: &[u8]) -> io::Result<()>
    requires { W.failures writer.old < 2 ^ 63 }
    ensures bytes { TakesAll result (W.taken writer.old) (W.taken writer.new) bytes.now }
    ensures failed { W.failures writer.new
        ≡ failures_after (W.failures writer.old) (is_err result) }
    ensures last { OnErr result (W.last_failed writer.new ≡ true) }
{
    let mut at = 0;
    while at < bytes.len() {
        let count = writer.write(&bytes[at..])?;
        if count == 0 {
            return Err(ErrorKind::WriteZero.into());
        }
        at += count;
    }
    Ok(())
}
