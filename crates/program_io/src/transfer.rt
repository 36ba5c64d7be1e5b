//! Reading all bytes of a source, and writing all of a text.

ghost use Rattle.std.specs.Prelude.{◌≡◌, ◌↔◌, ◌⊎◌, true, false, IfOk, IfErr, IfSome, OnOk, OnErr, IsErr, IsErrOf};
ghost use Rattle.std.specs.Io.KnownBytes.{Appends, IsAtEnd};
ghost use Rattle.program_io.specs.Transfer.{AppendsStart};
ghost use Rattle.program_io.specs.declared.fault.DeviceFault.TheVariants as faults;

use crate::device::{Sink, Source};
use crate::fault::DeviceFault;
use std::alloc::Global;

/// Returns all bytes that are left in a source, which must not have failed before.
///
/// - [`DeviceFault::Read`] if and only if the source fails.
/// - [`DeviceFault::OutOfMemory`] if there is not enough memory.
pub fn read_all<R: Source>(alloc: Global, source: &mut R) -> Result<Vec<u8>, DeviceFault>
    requires { R.failed source.old ≡ false }
    ensures bytes { IfOk result (λ bytes. IfSome (R.left source.old) (λ all. bytes.items ≡ all)) }
    ensures end { OnOk result (IsAtEnd (R.left source.new)) }
    ensures errors { IfErr result (λ e. (e ≡ faults.Read) ⊎ (e ≡ faults.OutOfMemory)) }
    ensures read { IsErrOf result faults.Read ↔ (R.failed source.new ≡ true) }
{
    let mut bytes = Vec::new(alloc);
    let mut chunk = [0u8; 4096];
    loop {
        let n = match source.read(&mut chunk) {
            Ok(n) => n,
            Err(_) => return Err(DeviceFault::Read),
        };
        if n == 0 {
            return Ok(bytes);
        }
        bytes.extend_from_slice(&chunk[..n])?;
    }
}

/// Writes all of `text` and flushes the sink, which must not have failed before.
///
/// The error is [`DeviceFault::Write`] if and only if the sink fails. Then some first bytes of `text`
/// were written, and the sink is not flushed.
pub fn write_all<W: Sink>(sink: &mut W, text: &[u8]) -> Result<(), DeviceFault>
    requires { W.failed sink.old ≡ false }
    ensures bytes { OnOk result (Appends (W.written sink.old) (W.written sink.new) text.now) }
    ensures flushed { OnOk result (W.flushed sink.new ≡ true) }
    ensures unsent { OnErr result (W.flushed sink.new ≡ false) }
    ensures start { OnErr result (AppendsStart (W.written sink.old) (W.written sink.new) text.now) }
    ensures errors { IfErr result (λ e. e ≡ faults.Write) }
    ensures write { IsErr result ↔ (W.failed sink.new ≡ true) }
{
    let mut rest = text;
    while !rest.is_empty() {
        match sink.write(rest) {
            Ok(n) => rest = &rest[n..],
            Err(_) => return Err(DeviceFault::Write),
        }
    }
    match sink.flush() {
        Ok(()) => Ok(()),
        Err(_) => Err(DeviceFault::Write),
    }
}
