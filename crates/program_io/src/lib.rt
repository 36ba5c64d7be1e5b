//! Input and output of programs: the traits `Source` and `Sink`, implementations of them for byte
//! slices and for readers and writers of `std`, and calls that read all of a source and write all of a
//! text.
//!
//! A function that copies all bytes of a source to a sink:
//!
//! ```rust
//! pub fn copy<R: Source, W: Sink>(
//!     alloc: Global,
//!     source: &mut R,
//!     sink: &mut W,
//! ) -> Result<(), DeviceFault>
//!     requires source_works { R.failed source.old ≡ false }
//!     requires sink_works { W.failed sink.old ≡ false }
//!     ensures bytes { OnOk result (IfSome (R.left source.old)
//!         (λ all. Appends (W.written sink.old) (W.written sink.new) all)) }
//!     ensures read { IsErrOf result faults.Read ↔ (R.failed source.new ≡ true) }
//!     ensures write { IsErrOf result faults.Write ↔ (W.failed sink.new ≡ true) }
//! {
//!     let bytes = read_all(alloc, source)?;
//!     write_all(sink, bytes.as_slice())
//! }
//! ```
#![tactic(auto)]

pub mod device;
pub mod fault;
pub mod memory_device;
pub mod std_device;
pub mod transfer;
