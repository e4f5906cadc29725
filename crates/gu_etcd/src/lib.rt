//! The journal of a day in a replicated log: the protocol of appending its batches to etcd.
#![tactic(auto)]

mod answers;
mod appender;
mod entry;
mod gateway;
mod granting;
mod keys;
mod leading;
mod log_sink;
mod memory_node;
mod name;
mod node;
mod outcome;
mod page;
mod requests;
mod splitting;

pub use answers::{MAX_ANSWER, read_put};
pub use appender::{AppendError, Appender};
pub use entry::{an_entry_is_of_one_desk, entry_of, parts_of};
pub use gateway::{Exchange, Gateway};
pub use granting::{Granted, read_alive, read_granted};
pub use keys::{batch_key, end_key, leader_key};
pub use leading::{LeadAnswer, read_lead};
pub use log_sink::{Led, LogSink, a_batch_is_found_whole_or_not_at_all};
pub use memory_node::{Fate, MemoryNode};
pub use name::{MAX_NAME, Name, is_name};
pub use node::{LAST_NUMBER, MAX_ENTRY, Node, NodeError, PutAnswer};
pub use outcome::TRIES;
pub use page::{PAGE, Page, read_page};
pub use requests::{
    GRANT_PATH, KEEP_ALIVE_PATH, RANGE_PATH, REVOKE_PATH, TXN_PATH, claim_text, grant_text,
    keep_alive_text, lead_text, leads_text, put_text, range_text,
};
pub use splitting::{after_prefix, split_at_byte};
