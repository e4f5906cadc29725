//! Typed FIX messages: reading them from fields, and writing them as fields.
#![tactic(auto)]

mod alloc_status;
mod allocation_instruction;
mod allocation_report_ack;
mod answer_fields;
mod answering;
mod asking;
mod boxed;
mod coded_values;
mod draft;
mod fault;
mod field_values;
mod groups;
mod header_reading;
pub mod inbound;
mod kinds;
mod laws;
mod midnight;
mod moment_texts;
mod msg_type;
mod notice_fields;
pub mod outbound;
mod outline;
mod places;
mod reading;
mod reject_reason;
mod rejection;
mod request_for_positions;
mod row;
mod run;
mod sending_firm;
mod session_fields;
mod session_messages;
mod shape;
mod stamp;
mod standard_header;
mod standings;
mod tables;
mod tags;
mod test_req_id;
mod trade_capture_report;
mod type_code;
mod whole_number;
mod writing;

pub use alloc_status::AllocStatus;
pub use answering::{answer_to, notice_body, positions_answer, report_ack};
pub use asking::{Asking, Question, Request};
pub use boxed::Boxed;
pub use coded_values::{AllocReportType, BusinessRejectReason, LogoutReason, PosReqResult};
pub use draft::Draft;
pub use fault::{Fault, MsgFault};
pub use header_reading::{header, header_in};
pub use inbound::Inbound;
pub use laws::{
    a_message_or_a_fault, one_first_fault, one_message, the_leftmost_second_standing_is_named,
    what_is_read_has_no_fault,
};
pub use midnight::midnight_of;
pub use moment_texts::moment_text;
pub use outbound::{Outbound, OutboundRef};
pub use reading::{ReadMessage, read, read_with_header};
pub use reject_reason::SessionRejectReason;
pub use rejection::{Rejection, TradeReportRejectReason};
pub use sending_firm::{sender, sender_in};
pub use stamp::Stamp;
pub use standard_header::{Header, HeaderRef};
pub use tags::{NEW_SEQ_NO, SENDER_COMP_ID, TARGET_COMP_ID};
pub use test_req_id::TestReqId;
pub use type_code::TypeCode;
pub use whole_number::{is_numeral, number_of, short_number};
pub use writing::{write, write_over};
