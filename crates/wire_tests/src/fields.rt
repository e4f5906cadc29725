//! What the fields of a message are.
use crate::messages::{frame_in, text_of};
use crate::rows::{Subject, check};
use gu_fix::{FieldFault, Fields, Frame, fields, fields_over, into_fields};
use std::alloc::{AllocError, Global};

/// What holds the bytes of fields.
#[derive(Clone, Copy)]
pub enum Holder {
    /// A copy.
    Copy,
    /// The message's own bytes.
    Message,
    /// The message's own bytes, replacing earlier fields that were a copy.
    Earlier,
}

/// Fields, and the tag and the reason of the malformed one.
fn text_with(
    alloc: Global,
    fields: &Fields,
    fault: Option<FieldFault>,
) -> Result<String, AllocError> {
    let mut text = text_of(alloc, fields)?;
    if let Some(fault) = fault {
        write!(text, " {}: {}", fault.tag, fault.reason.number())?;
    }
    Ok(text)
}

/// Returns what a message is split into.
fn split(
    alloc: Global,
    holder: Holder,
    frame: Frame,
) -> Result<(Fields, Option<FieldFault>), AllocError> {
    match holder {
        Holder::Copy => fields(alloc, &frame),
        Holder::Message => into_fields(alloc, frame),
        Holder::Earlier => {
            let (mut earlier, _) = fields(alloc, &frame)?;
            let fault = fields_over(alloc, &mut earlier, frame)?;
            Ok((earlier, fault))
        }
    }
}

/// Returns the same as a text.
pub fn told(alloc: Global, holder: Holder, message: &str) -> Result<String, AllocError> {
    let frame = frame_in(alloc, message)?;
    let (fields, fault) = split(alloc, holder, frame)?;
    text_with(alloc, &fields.copy(alloc)?, fault)
}

/// Messages, and their fields, and the tag and the reason of the first that is malformed.
const ROWS: &str = "\
8=FIXT.1.1|9=15|35=0|58=x|34=2|10=028| -> 8=FIXT.1.1|9=15|35=0|58=x|34=2|10=028|
8=FIXT.1.1|9=22|35=0|999999999=x|34=2|10=174| -> 8=FIXT.1.1|9=22|35=0|999999999=x|34=2|10=174|
8=FIXT.1.1|9=17|35=0|58==x=|34=2|10=152| -> 8=FIXT.1.1|9=17|35=0|58==x=|34=2|10=152|
8=FIXT.1.1|9=11|35=0||34=2|10=246| -> 8=FIXT.1.1|9=11|35=0|34=2|10=246| 0: 0
8=FIXT.1.1|9=14|35=0|abc|34=2|10=031| -> 8=FIXT.1.1|9=14|35=0|34=2|10=031| 0: 0
8=FIXT.1.1|9=13|35=0|=x|34=2|10=173| -> 8=FIXT.1.1|9=13|35=0|34=2|10=173| 0: 0
8=FIXT.1.1|9=16|35=0|058=x|34=2|10=077| -> 8=FIXT.1.1|9=16|35=0|34=2|10=077| 0: 0
8=FIXT.1.1|9=23|35=0|1234567890=x|34=2|10=187| -> 8=FIXT.1.1|9=23|35=0|34=2|10=187| 0: 0
8=FIXT.1.1|9=16|35=0|5a8=x|34=2|10=126| -> 8=FIXT.1.1|9=16|35=0|34=2|10=126| 0: 0
8=FIXT.1.1|9=14|35=0|58=|34=2|10=163| -> 8=FIXT.1.1|9=14|35=0|34=2|10=163| 58: 4
8=FIXT.1.1|9=17|35=0|58=|=x|34=2|10=092| -> 8=FIXT.1.1|9=17|35=0|34=2|10=092| 58: 4
8=FIXT.1.1|9=16|35=0|=|58=|34=2|10=227| -> 8=FIXT.1.1|9=16|35=0|34=2|10=227| 0: 0
8=FIXT.1.1|9=9|35=|34=2|10=156| -> 8=FIXT.1.1|9=9|34=2|10=156| 35: 4
";

/// Messages of 65,536 bytes, with one long value and with 16,380 fields.
const LONGEST: &str = "\
8=FIXT.1.1|9=65510|35=0|58={x*65501}|10=000| -> 8=FIXT.1.1|9=65510|35=0|58={x*65501}|10=000|
8=FIXT.1.1|9=65510|35=0|{1=x|*16375}11=x|10=182| -> 8=FIXT.1.1|9=65510|35=0|{1=x|*16375}11=x|10=182|
";

/// The rows two hundred times, so that thousands of messages are split in a row.
#[test]
fn the_first_malformed_field_is_named_and_those_after_it_are_given(rt: HostRuntime) {
    for holder in [Holder::Copy, Holder::Message, Holder::Earlier] {
        check(&rt, rt.alloc(), Subject::Fields(holder), LONGEST);
        for _ in 0..200 {
            check(&rt, rt.alloc(), Subject::Fields(holder), ROWS);
        }
    }
}
