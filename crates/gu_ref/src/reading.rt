//! Reading a reference from a file of rows.

ghost use Rattle.std.specs.Prelude.{◌≡◌, true, IfOk, IfErr, IsErrOf};
ghost use Rattle.csv.specs.Reading.{error_kind, stops_reader};
ghost use Rattle.gu_ref.specs.Faults.{failure_of};
ghost use Rattle.gu_ref.specs.File.{IsReadFrom, Refuses};
ghost use Rattle.gu_streams.specs.Reads.{bytes_left, has_failed, HasStopped};

use crate::error::RefFault;
use crate::reference::Reference;
use csv::ReaderBuilder;
use gu_streams::CountedReads;
use std::alloc::Global;
use std::io::Read;

/// Returns the fault for a `csv` error: out of memory, or a failure of the reader.
fn fault_of(error: &csv::Error) -> RefFault
    requires { stops_reader (error_kind error.now) ≡ true }
    ensures { result ≡ failure_of (error_kind error.now) }
{
    if error.is_io_error() {
        RefFault::ReadFault
    } else {
        RefFault::Memory
    }
}

/// Returns the reference made by the rows of a file.
fn read_rows<R: Read + Drop>(alloc: Global, reader: R) -> Result<Reference, RefFault>
    ensures accepted { IfOk result (λ reference. IsReadFrom (R.remaining reader) reference) }
    ensures refused { IfErr result (λ fault. Refuses (R.remaining reader) fault) }
{
    let records = ReaderBuilder::new()
        .has_headers(false)
        .flexible(true)
        .from_reader(alloc, reader);
    let mut reference = Reference::empty(alloc);
    for fields in records.into_byte_records() {
        match fields {
            Ok(fields) => reference.accept(&fields)?,
            Err(error) => return Err(fault_of(&error)),
        }
    }
    Ok(reference)
}

impl Reference {
    /// Returns the reference made by the rows of a file, read to its end. A file with no rows is accepted.
    pub fn read<R: Read>(alloc: Global, reads: &mut CountedReads<R>) -> Result<Reference, RefFault>
        ensures accepted { IfOk result (λ reference. IsReadFrom (bytes_left R.remaining reads.old) reference) }
        ensures refused { IfErr result (λ fault. Refuses (bytes_left R.remaining reads.old) fault) }

        // A read fault means that the reader failed or no reads are left; if the reader failed, there is a read fault.
        ensures read_fault { IsErrOf result RefFault.ReadFault → HasStopped reads.new }
        ensures failed { has_failed reads.new ≡ true → IsErrOf result RefFault.ReadFault }
    {
        let answer = read_rows(alloc, &mut *reads);
        if reads.has_failed() {
            return Err(RefFault::ReadFault);
        }
        match answer {
            Err(RefFault::ReadFault) if !reads.is_spent() => Err(RefFault::Memory),
            answer => answer,
        }
    }
}
