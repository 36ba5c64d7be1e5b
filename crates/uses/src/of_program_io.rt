//! The caller that the page on calling `program_io` shows.

ghost use Rattle.std.specs.Prelude.{◌≡◌, ◌↔◌, true, false, IfSome, IsErrOf, OnOk};
ghost use Rattle.std.specs.Io.KnownBytes.{Appends};
ghost use Rattle.program_io.specs.declared.fault.DeviceFault.TheVariants as faults;

use program_io::device::{Sink, Source};
use program_io::fault::DeviceFault;
use program_io::transfer::{read_all, write_all};
use std::alloc::Global;

/// Writes all bytes that are left in a source to a sink.
pub fn copy<R: Source, W: Sink>(
    alloc: Global,
    source: &mut R,
    sink: &mut W,
) -> Result<(), DeviceFault>
    requires source_works { R.failed source.old ≡ false }
    requires sink_works { W.failed sink.old ≡ false }
    ensures bytes { OnOk result (IfSome (R.left source.old)
        (λ all. Appends (W.written sink.old) (W.written sink.new) all)) }
    ensures read { IsErrOf result faults.Read ↔ (R.failed source.new ≡ true) }
    ensures write { IsErrOf result faults.Write ↔ (W.failed sink.new ≡ true) }
{
    let bytes = read_all(alloc, source)?;
    write_all(sink, bytes.as_slice())
}
