//! What fields are written as.
use crate::messages::{fields_of, shown};
use crate::rows::{Subject, check};
use gu_fix::{EncodeError, encode};
use std::alloc::{AllocError, Global};

/// Texts of fields, and the message or the fault.
const ROWS: &str = "\
35=0| -> 8=FIXT.1.1|9=5|35=0|10=241|
35=0|49=E1|56=GIVEUP|34=2|52=20260105-09:00:00| -> 8=FIXT.1.1|9=47|35=0|49=E1|56=GIVEUP|34=2|52=20260105-09:00:00|10=151|
 -> BadTag
35=0|9=5| -> BadTag
49=E1|35=0| -> BadTag
35=0|0=x| -> BadTag
35=0|8=x| -> BadTag
35=0|10=x| -> BadTag
35=0|1000000000=x| -> BadTag
35=0|49=| -> EmptyValue
35=0|58=x\x01y| -> SohInValue
35=x|49=|9=5| -> BadTag
35=0|58=\x01|49=| -> EmptyValue
";

/// Messages of 65,536 bytes, and with one field more.
const LONGEST: &str = "\
35=0|58={x*65501}| -> 8=FIXT.1.1|9=65510|35=0|58={x*65501}|10=000|
35=0|58={x*65501}|58=x| -> TooLong
35=0|{1=x|*16375}11=x| -> 8=FIXT.1.1|9=65510|35=0|{1=x|*16375}11=x|10=182|
35=0|{1=x|*16375}11=x|58=x| -> TooLong
";

/// Returns the message of a text's fields, or why there is none.
pub fn told(alloc: Global, text: &str) -> Result<String, AllocError> {
    let fields = fields_of(alloc, text)?;
    match encode(alloc, &fields) {
        Ok(bytes) => shown(alloc, &bytes),
        Err(EncodeError::Memory) => Err(AllocError),
        Err(error) => format!(in alloc; "{error}"),
    }
}

/// The rows two hundred times, so that thousands of messages are written in a row.
#[test]
fn fields_are_written_or_their_first_fault_is_named(rt: HostRuntime) {
    check(&rt, rt.alloc(), Subject::Encoding, LONGEST);
    for _ in 0..200 {
        check(&rt, rt.alloc(), Subject::Encoding, ROWS);
    }
}
