//! Scripts and their texts: transcripts. In one `/` ends a line, and lines that begin with `< ` are answers; ends of lines of the
//! transcript itself mean nothing, and `@opened/` is the part of this name.

use crate::plays;
use crate::rows::check_told;
use std::alloc::{AllocError, Global};
use std::process::Abort;
use trials::columns;

/// Parts of transcripts: a day with limits of 100 on each key of the first agreement (entries 1 to 5), trades of 10 and of 7 lots, the
/// second given up, sheets of sweeps that take those, a claim, a claim of 6 and a proposal of 4, two offers of 5 lots under an agreement
/// with room for 7, three offers that share an executing firm or an account by twos, and two under a carrying firm with room for 13, whose
/// takes are left open.
const PARTS: &str = "\
@opened/
DAY 20260105/< 1 OK/
LIMIT G1 EXEC E1 100/< 2 OK/
LIMIT G1 AGR P1 100/< 3 OK/
LIMIT G1 ACCT A1 100/< 4 OK/
LIMIT G1 CARRY C1 100/< 5 OK/

@trade_10/
REPORT E1 R1 M1 B XF6 10 101.5 H1/< 6 OK OPEN/
REPORT E2 R2 M1 S XF6 10 101.5 H2/< 7 OK MATCHED/

@offered_7/
REPORT E1 R1 M1 B XF6 7 101.5 H1/< 6 OK OPEN/
REPORT E2 R2 M1 S XF6 7 101.5 H2/< 7 OK MATCHED/
GIVEUP E1 L1 R1 A1 7/< 8 OK OFFERS 1 1/

@sheet_of_7/
< SHEET G1 6/< OFFER 1 7 P1 E1 A1 C1/< ROOM EXEC E1 100/< ROOM AGR P1 100/< ROOM ACCT A1 100/< ROOM CARRY C1 100/< TAKE 1 7/< CUT OFFER 1/< END/

@sheet_of_10/
< SHEET G1 6/< OFFER 1 10 P1 E1 A1 C1/< ROOM EXEC E1 100/< ROOM AGR P1 100/< ROOM ACCT A1 100/< ROOM CARRY C1 100/< TAKE 1 10/< CUT OFFER 1/< END/

@claimed_10/
GIVEUP E1 L1 R1 A1 10/< 8 OK OFFERS 1 1/
POSITION H1 XF6/< POSITION H1 XF6 10 0/
POSITION A1 XF6/< POSITION A1 XF6 0 0/
CLAIM C1 1/< 9 OK LOTS 10/
POSITION H1 XF6/< POSITION H1 XF6 0 0/
POSITION A1 XF6/< POSITION A1 XF6 10 0/
POSITION H2 XF6/< POSITION H2 XF6 0 10/
INTEREST XF6/< INTEREST XF6 10/
LIMITS G1/< LIMIT G1 EXEC E1 100 10 90/< LIMIT G1 AGR P1 100 10 90/< LIMIT G1 ACCT A1 100 10 90/< LIMIT G1 CARRY C1 100 10 90/

@proposed_4/
GIVEUP E1 L1 R1 A1 6/< 8 OK OFFERS 1 1/
CLAIM C1 1/< 9 OK LOTS 6/
GIVEUP E1 L2 R1 A1 4/< 10 OK OFFERS 2 2/
SEE 0 G1/< SEEN G1 8/
PROPOSE 0/< PROPOSED 4/

@swept_7_of_10/
DAY 20260105/< 1 OK/
LIMIT G1 EXEC E1 100/< 2 OK/
LIMIT G1 AGR P1 7/< 3 OK/
LIMIT G1 ACCT A1 100/< 4 OK/
LIMIT G1 CARRY C1 100/< 5 OK/
REPORT E1 R1 M1 B XF6 10 101.5 H1/< 6 OK OPEN/
REPORT E2 R2 M1 S XF6 10 101.5 H2/< 7 OK MATCHED/
GIVEUP E1 L1 R1 A1 5 A1 5/< 8 OK OFFERS 1 2/
SWEEP G1/< 9 SWEPT G1 7/< SHEET G1 6/< OFFER 1 5 P1 E1 A1 C1/< OFFER 2 5 P1 E1 A1 C1/< ROOM EXEC E1 100/< ROOM AGR P1 7/< ROOM ACCT A1 100/< ROOM CARRY C1 100/< TAKE 1 5/< TAKE 2 2/< CUT AGR P1/< END/

@over_the_group/
DAY 20260105/< 1 OK/
LIMIT G1 EXEC E1 10/< 2 OK/
LIMIT G1 EXEC E2 20/< 3 OK/
LIMIT G1 AGR P1 100/< 4 OK/
LIMIT G1 AGR P2 100/< 5 OK/
LIMIT G1 AGR P3 100/< 6 OK/
LIMIT G1 ACCT A1 10/< 7 OK/
LIMIT G1 ACCT A2 20/< 8 OK/
LIMIT G1 CARRY C1 100/< 9 OK/
REPORT E1 R1 M1 B XF6 22 101.5 H1/< 10 OK OPEN/
REPORT E2 R2 M1 S XF6 22 101.5 H2/< 11 OK MATCHED/
GIVEUP E1 L1 R1 A1 10 A2 12/< 12 OK OFFERS 1 2/
GIVEUP E2 L2 R2 A1 15/< 13 OK OFFERS 3 3/
SWEEP G1/< 14 SWEPT G1 20/< SHEET G1 11/< OFFER 1 10 P1 E1 A1 C1/< OFFER 2 12 P2 E1 A2 C1/< OFFER 3 15 P3 E2 A1 C1/< ROOM EXEC E1 10/< ROOM AGR P1 100/< ROOM ACCT A1 10/< ROOM CARRY C1 100/< ROOM AGR P2 100/< ROOM ACCT A2 20/< ROOM EXEC E2 20/< ROOM AGR P3 100/< TAKE 1 0/< TAKE 2 10/< TAKE 3 10/< CUT EXEC E1/< CUT ACCT A1/< END/

@under_a_carrying_firm/
DAY 20260105/< 1 OK/
LIMIT G1 EXEC E1 100/< 2 OK/
LIMIT G1 AGR P1 100/< 3 OK/
LIMIT G1 AGR P2 100/< 4 OK/
LIMIT G1 ACCT A1 10/< 5 OK/
LIMIT G1 ACCT A2 10/< 6 OK/
LIMIT G1 CARRY C1 13/< 7 OK/
REPORT E1 R1 M1 B XF6 20 101.5 H1/< 8 OK OPEN/
REPORT E2 R2 M1 S XF6 20 101.5 H2/< 9 OK MATCHED/
GIVEUP E1 L1 R1 A1 10 A2 10/< 10 OK OFFERS 1 2/
SWEEP G1/< 11 SWEPT G1 13/< SHEET G1 8/< OFFER 1 10 P1 E1 A1 C1/< OFFER 2 10 P2 E1 A2 C1/< ROOM EXEC E1 100/< ROOM AGR P1 100/< ROOM ACCT A1 10/< ROOM CARRY C1 13/< ROOM AGR P2 100/< ROOM ACCT A2 10/< TAKE 1 @takes/< CUT CARRY C1/< END/";

/// Returns a transcript with its parts.
pub fn whole(alloc: Global, transcript: &str) -> Result<String, AllocError> {
    let mut text = String::from_str(alloc, transcript)?;
    for part in PARTS.split("\n\n") {
        let (name, lines) = part.split_once('\n').unwrap_or((part, ""));
        text = text.replace(alloc, name, lines)?;
    }
    text.replace(alloc, "\n", "")
}

/// Returns the script of a whole transcript.
pub fn script_of(alloc: Global, transcript: &str) -> Result<String, AllocError> {
    let mut script = String::new(alloc);
    for line in transcript.split_inclusive('/') {
        if !line.starts_with("< ") {
            script.push_str(line)?;
        }
    }
    Ok(script)
}

/// Returns what answers the script of a whole transcript.
pub fn answers_of(alloc: Global, transcript: &str) -> Result<String, AllocError> {
    let mut answers = String::new(alloc);
    for line in transcript.split_inclusive('/') {
        if let Some(text) = line.strip_prefix("< ") {
            answers.push_str(text)?;
        }
    }
    Ok(answers)
}

/// Returns what the script of a whole transcript reports, on the sample with these rows more.
pub fn told(alloc: Global, rows: &str, transcript: &str) -> Result<String, AllocError> {
    let script = script_of(alloc, transcript)?;
    plays::told(alloc, rows, &script, 4_096)
}

/// Returns what it is to report.
pub fn expected(alloc: Global, end: &str, transcript: &str) -> Result<String, AllocError> {
    let answers = answers_of(alloc, transcript)?;
    let end = if end.is_empty() { "done" } else { end };
    format!(in alloc; "{end}: {answers}")
}

/// Asserts that the script of each transcript of a table is answered so, on the sample with these rows more. The first line of each is its
/// name, and how it ends, unless all is done. An empty line comes between them.
pub fn check(rt: &impl Abort, alloc: Global, rows: &str, table: &str) {
    for block in table.split("\n\n") {
        let (head, transcript) = block.split_once('\n').unwrap_or((block, ""));
        let (name, end) = columns(head);
        let transcript = whole(alloc, transcript).expect(rt, "memory");
        let expected = expected(alloc, end, &transcript).expect(rt, "memory");
        check_told(rt, name, told(alloc, rows, &transcript), &expected);
    }
}
