//! Sheets that scripts write, and what a check of them says.

use crate::rows::check_told;
use crate::transcripts::{told, whole};
use gu_text::{Sheet, TextError, verdict_text};
use gu_view::check;
use std::alloc::Global;
use trials::columns;

/// Transcripts that end with a sheet, and the line of its check.
const SHEETS: &str = "\
@over_the_group/ -> OK 20/
@under_a_carrying_firm/ -> OK 13/
@swept_7_of_10/ -> OK 7/
";

/// Returns the line of the check of a sheet.
fn verdict_on(alloc: Global, sheet: &str) -> Result<String, TextError> {
    let sheet = Sheet::read(alloc, sheet.as_bytes())?;
    let verdict = check(&sheet.view, &sheet.takes, &sheet.cut);
    let line = verdict_text(alloc, &verdict)?;
    let text = str::from_utf8(&line).unwrap_or("?");
    Ok(text.replace(alloc, "\n", "/")?)
}

/// Returns what the check says of the sheet of a script's last sweep.
fn sheet_told(alloc: Global, transcript: &str) -> Result<String, TextError> {
    let written = told(alloc, "", &whole(alloc, transcript)?)?;
    let (_, sheet) = written.rsplit_once("SHEET ").unwrap_or(("", ""));
    let sheet = format!(in alloc; "SHEET {sheet}")?;
    verdict_on(alloc, &sheet.replace(alloc, "/", "\n")?)
}

#[test]
fn a_sheet_that_a_script_writes_passes_the_check(rt: HostRuntime) {
    for row in SHEETS.lines() {
        let (transcript, line) = columns(row);
        let told = sheet_told(rt.alloc(), transcript).ok().expect(&rt, row);
        check_told(&rt, row, Ok(told), line);
    }
}
