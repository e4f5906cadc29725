//! The header of a message, whatever else is in it.
use crate::messages::{fields_of, text_in};
use crate::rows::{Subject, check};
use gu_msgs::{Header, header};
use std::alloc::{AllocError, Global};

/// Texts of fields, and the parts of their header: the type, the sender, the target, the number, and whether it is sent
/// again, each with `-` if there is none.
pub const ROWS: &str = "\
8=FIXT.1.1|35=0|49=E1|56=GIVEUP|34=2|43=N| -> 0 E1 GIVEUP 2 N
34=2|58=x|56=GIVEUP|49=E1|35=0| -> 0 E1 GIVEUP 2 -
35=0|35=1|49=E1|49=E1|56=GIVEUP|34=2|34=3|43=Y|43=Y| -> 0 - GIVEUP - -
35=A!|49=|34=x| -> A!  - x -
 -> - - - - -
";

/// Returns a part of a header.
fn part_of(part: &Option<Vec<u8>>) -> &str {
    match part {
        Some(bytes) => text_in(bytes),
        None => "-",
    }
}

/// Returns the parts of a header.
fn parts(alloc: Global, found: &Header) -> Result<String, AllocError> {
    format!(in alloc;
        "{} {} {} {} {}",
        part_of(&found.msg_type),
        part_of(&found.sender_comp_id),
        part_of(&found.target_comp_id),
        part_of(&found.msg_seq_num),
        part_of(&found.poss_dup_flag)
    )
}

/// Returns the parts of the header of a text's fields.
pub fn told(alloc: Global, text: &str) -> Result<String, AllocError> {
    let fields = fields_of(alloc, text)?;
    let found = header(alloc, &fields)?;
    let parts = parts(alloc, &found);
    drop(found);
    parts
}

#[test]
fn the_first_type_counts_and_of_the_others_what_stands_once(rt: HostRuntime) {
    for _ in 0..1_000 {
        check(&rt, rt.alloc(), Subject::Header, ROWS);
    }
}
