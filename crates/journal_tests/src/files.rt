//! A log on a file of the system.
use crate::days::{BATCHES, STEP, append_all, day, joined};
use gu_journal::{FileDevice, Log};
use std::alloc::Global;
use std::fs;
use std::fs::File;
use std::io::{Read, Write};
use std::process::Abort;
use std::rt::Files;
use std::test::Fail;

/// The file of the test.
const PATH: &str = "a_day_of_journal_tests";

/// Writes a day to a new file, which then has this many bytes, and a torn line after it.
fn write_torn_day<R: Files + Abort>(rt: &R, alloc: Global, len: u64) -> Result<(), Fail> {
    let made = File::options()
        .read(true)
        .write(true)
        .create(true)
        .truncate(true)
        .open(rt, PATH)?;
    let written = day(FileDevice::new(alloc, made), BATCHES);
    let mut file = written.ok().expect(rt, "kept").into_file();
    assert_eq!(rt; fs::metadata(rt, PATH)?.len(), len);
    file.write_all(b"torn")?;
    Ok(())
}

/// Opens the file, finds this text on it, and appends a batch.
fn go_on<R: Files + Abort>(rt: &R, alloc: Global, text: &[u8]) -> Result<(), Fail> {
    let again = File::options().read(true).write(true).open(rt, PATH)?;
    let found = Log::open(alloc, FileDevice::new(alloc, again), STEP)
        .ok()
        .expect(rt, "opened");
    assert_eq!(rt; found.torn, 4);
    assert_eq!(rt; found.text.as_slice(), text);
    let log = append_all(found.log, &["# on\n"]).ok().expect(rt, "kept");
    drop(log.finish().ok().expect(rt, "finished"));
    Ok(())
}

#[test]
fn a_file_has_the_text_of_a_day_and_is_opened_after_a_torn_line(
    rt: HostRuntime,
) -> Result<(), Fail> {
    let text = joined(rt.alloc(), BATCHES).ok().expect(&rt, "a text");
    write_torn_day(&rt, rt.alloc(), text.len() as u64)?;
    go_on(&rt, rt.alloc(), &text)?;
    let mut bytes = Vec::new(rt.alloc());
    File::open(&rt, PATH)?.read_to_end(&mut bytes)?;
    assert_eq!(rt;
        bytes.strip_prefix(text.as_slice()),
        Some(b"# on\n".as_slice())
    );
    fs::remove_file(&rt, PATH)?;
    Ok(())
}
