//! Writes that don't wait, over pipes, sockets and files of this machine.

use crate::machine::Machine;
use crate::writing::write_notes;
use gu_log::Unwaiting;
use std::alloc::Global;
use std::io::{ErrorKind, Read, Write};
use std::os::unix::net::UnixStream;
use std::process::Abort;
use std::sync::Wait;
use std::test::Fail;
use std::{env, fs, io, process};

/// How many writes are made at most of a writer that is to be full: many more than fill a pipe or a socket.
const MOST_WRITES: u32 = 100_000;

/// Writes until the writer takes nothing for now. Returns how many bytes it took.
fn fill<W: Write>(rt: &impl Abort, alloc: Global, writer: &mut W) -> Result<u64, Fail> {
    let piece = vec![in alloc; b'x'; 10_000]?;
    let mut bytes = 0_u64;
    for _write in 0..MOST_WRITES {
        match writer.write(&piece) {
            Ok(count) => {
                assert!(rt; 0 < count && count <= 4_096);
                bytes = bytes.saturating_add(count as u64);
            }
            Err(error) => {
                assert_eq!(rt; error.kind(), ErrorKind::WouldBlock);
                return Ok(bytes);
            }
        }
    }
    assert!(rt; false, "a writer that is never full");
    Ok(bytes)
}

/// Reads this many bytes.
fn empty<R: Read>(alloc: Global, reader: &mut R, bytes: usize) -> Result<(), Fail> {
    let mut piece = vec![in alloc; 0_u8; bytes]?;
    reader.read_exact(&mut piece)?;
    Ok(())
}

/// Fills a writer, reads at most this many of its bytes, and writes on.
fn fill_again<R: Read, W: Write>(
    rt: &impl Abort,
    alloc: Global,
    reader: &mut R,
    writer: &mut W,
    most: usize,
) -> Result<(), Fail> {
    let bytes = fill(rt, alloc, writer)?;
    assert!(rt; bytes >= 4_096);
    let bytes = usize::try_from(bytes).ok().expect(rt, "a length");
    empty(alloc, reader, bytes.min(most))?;
    assert_eq!(rt; writer.write(b"a line\n")?, 7);
    assert!(rt; fill(rt, alloc, writer)? > 0);
    Ok(())
}

#[test]
fn a_pipe_that_is_full_takes_nothing_for_now(rt: HostRuntime) -> Result<(), Fail> {
    let (mut reader, writer) = io::pipe(&rt)?;
    let mut writer = Unwaiting::new(&rt, rt.alloc(), writer)?;
    fill_again(&rt, rt.alloc(), &mut reader, &mut writer, 8_192)?;
    drop(reader);
    let broken = writer.write(b"a line\n");
    assert_eq!(rt; broken.map_err(|e| e.kind()), Err(ErrorKind::BrokenPipe));
    Ok(())
}

#[test]
fn a_socket_that_is_full_takes_nothing_for_now(rt: HostRuntime) -> Result<(), Fail> {
    let (mut reader, writer) = UnixStream::pair(&rt)?;
    let mut writer = Unwaiting::new(&rt, rt.alloc(), writer)?;
    fill_again(&rt, rt.alloc(), &mut reader, &mut writer, usize::MAX)
}

#[test]
fn a_log_over_a_pipe_that_nobody_reads_ends(rt: HostRuntime) -> Result<(), Fail> {
    let machine = Machine::new(&rt);
    let (reader, writer) = io::pipe(&rt)?;
    let mut writer = Unwaiting::new(&rt, rt.alloc(), writer)?;
    fill(&rt, rt.alloc(), &mut writer)?;
    write_notes(&machine, rt.alloc(), 1_024, &mut writer);
    assert_eq!(rt; machine.slept(), 1_000);
    drop(reader);
    Ok(())
}

/// Writes a piece of which a part is taken, and then a line.
fn write_piece_and_line<R: Wait + Abort, W: Write>(
    rt: &R,
    alloc: Global,
    writer: &mut W,
) -> Result<(), Fail> {
    let machine = Machine::new(rt);
    let piece = vec![in alloc; b'x'; 10_000]?;
    assert_eq!(rt; writer.write(&piece)?, 4_096);
    write_notes(&machine, alloc, 1, writer);
    assert_eq!(rt; machine.slept(), 0);
    Ok(())
}

#[test]
fn a_file_is_written_at_once(rt: HostRuntime) -> Result<(), Fail> {
    let name = format!(in rt.alloc(); "log-{}", process::id(rt.process()))?;
    let path = env::temp_dir(&rt)?.join(rt.alloc(), name.as_str())?;
    let file = fs::create(&rt, path.as_path())?;
    let mut writer = Unwaiting::new(&rt, rt.alloc(), file)?;
    write_piece_and_line(&rt, rt.alloc(), &mut writer)?;
    drop(writer);
    let text = fs::read(&rt, path.as_path())?;
    assert_eq!(rt; text.len(), 4_138);
    assert!(rt; text.ends_with(b"x20260105-09:00:02.001 journal.lost kept=1\n"));
    fs::remove_file(&rt, path.as_path())?;
    Ok(())
}
