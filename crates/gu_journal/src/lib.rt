//! A journal: text that is on the disk before it is acknowledged.
#![tactic(auto)]

mod calls;
mod device;
mod file;
mod log;
mod memory;
mod opening;
mod scanning;
mod sink;
mod stopped;
mod zeros;

pub use device::{Device, DeviceError};
pub use file::FileDevice;
pub use log::{Log, Opened, STEP};
pub use memory::{Call, Memory};
pub use opening::OpenError;
pub use scanning::is_batch;
pub use sink::{MAX_BATCH, Sink, SinkError};
pub use stopped::Stopped;
