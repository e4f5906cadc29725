//! A device that is a system file.
ghost use Rattle.std.specs.Prelude.{◌≡◌, [], length, vec_len, IfOk};

use crate::{Device, DeviceError};
use std::alloc::{AllocError, Global};
use std::fs::OpenFile;
use std::io;
use std::io::{ErrorKind, Read, Seek, SeekFrom, Write};

/// The number of zeros written at a time.
const CHUNK: usize = 1 << 16;

/// A file as a device. No contract says what a system file returns or keeps, so it is never honest: the clauses of `Device` promise nothing
/// about it.
#[derive(Drop)]
pub struct FileDevice<F> {
    alloc: Global,
    file: F,
    /// Whether the length has changed since the last sync.
    is_resized: bool,
    fault: Option<io::Error>,
}

/// Returns the device error for a file's error.
fn device_error(error: &io::Error) -> DeviceError {
    match error.kind() {
        ErrorKind::OutOfMemory => DeviceError::Memory,
        ErrorKind::StorageFull | ErrorKind::QuotaExceeded | ErrorKind::FileTooLarge => {
            DeviceError::Full
        }
        _ => DeviceError::Failed,
    }
}

impl<F: Read + Write + Seek + OpenFile + Drop> FileDevice<F> {
    /// Returns a device for a file that is open for reading and writing, and that no other program writes to: whoever opens it locks it.
    pub fn new(alloc: Global, file: F) -> Self {
        FileDevice {
            alloc,
            file,
            is_resized: false,
            fault: None,
        }
    }

    /// Returns the system's error from the last call that failed.
    pub fn fault(&self) -> Option<&io::Error> {
        self.fault.as_ref()
    }

    /// Gives the file back.
    pub fn into_file(self) -> F {
        let FileDevice { file, .. } = self;
        file
    }

    /// Stores the system's error.
    fn answer<T>(&mut self, answer: io::Result<T>) -> Result<T, DeviceError> {
        match answer {
            Ok(value) => Ok(value),
            Err(error) => {
                let fault = device_error(&error);
                self.fault = Some(error);
                Err(fault)
            }
        }
    }
}

/// Reads a file from its beginning.
fn read_whole<F: Read + Seek>(file: &mut F, bytes: &mut Vec<u8>) -> io::Result<()> {
    file.seek(SeekFrom::Start(0))?;
    file.read_to_end(bytes)?;
    Ok(())
}

/// Writes bytes starting at a position.
fn write_from<F: Write + Seek>(file: &mut F, place: SeekFrom, bytes: &[u8]) -> io::Result<()> {
    file.seek(place)?;
    file.write_all(bytes)
}

/// Returns the zeros that are written at a time.
fn chunk(alloc: Global) -> Result<Vec<u8>, AllocError>
    ensures { IfOk result (λ zeros. vec_len zeros ≡ CHUNK) }
{
    vec![in alloc; 0; CHUNK]
}

/// Writes zeros at the end.
fn add_zeros<F: Write + Seek>(file: &mut F, zeros: &[u8], more: usize) -> io::Result<()>
    requires { length zeros.now ≡ CHUNK }
{
    file.seek(SeekFrom::End(0))?;
    for _ in 0..more / CHUNK {
        file.write_all(zeros)?;
    }
    file.write_all(&zeros[..more % CHUNK])
}

impl<F: Read + Write + Seek + OpenFile + Drop> Device for FileDevice<F> {
    ghost is_honest = { λ _. ⊥ };

    ghost seen = { λ _. [] };

    ghost may_leave = { λ _ _. ⊥ };

    ghost moment = { λ _. 0 };

    ghost left_since = { λ _ _ _. ⊥ };

    ghost failures = { λ _. 0 };

    ghost shortages = { λ _. 0 };

    ghost counts_now = { λ _ _ _ _ left. left };

    ghost only_now = { λ _ _ left. left };

    fn read(&mut self, alloc: Global) -> Result<Vec<u8>, DeviceError> {
        let mut bytes = Vec::new(alloc);
        let answer = read_whole(&mut self.file, &mut bytes);
        self.answer(answer)?;
        Ok(bytes)
    }

    fn write_at(&mut self, at: usize, bytes: &[u8]) -> Result<(), DeviceError> {
        let answer = write_from(&mut self.file, SeekFrom::Start(at as u64), bytes);
        self.answer(answer)
    }

    fn lengthen(&mut self, more: usize) -> Result<(), DeviceError> {
        let zeros = chunk(self.alloc)?;
        self.is_resized = true;
        let answer = add_zeros(&mut self.file, &zeros, more);
        self.answer(answer)
    }

    fn cut(&mut self, len: usize) -> Result<(), DeviceError> {
        self.is_resized = true;
        let answer = self.file.set_len(len as u64);
        self.answer(answer)
    }

    fn sync(&mut self) -> Result<(), DeviceError> {
        let answer = if self.is_resized {
            self.file.sync_all()
        } else {
            self.file.sync_data()
        };
        self.answer(answer)?;
        self.is_resized = false;
        Ok(())
    }
}
