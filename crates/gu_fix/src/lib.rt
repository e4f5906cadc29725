//! Frames and fields of FIX.
#![tactic(auto)]

mod body_text;
mod encoding;
mod error;
mod feed;
mod field;
mod frame;
mod intake;
mod laws;
mod prefix;
mod scan;
mod splitting;
mod tag;
mod window;

pub use body_text::BodyText;
pub use encoding::{encode, encode_onto};
pub use error::{EncodeError, FeedError, FieldFault, SessionRejectReason};
pub use feed::Feed;
pub use field::{Field, Fields, Iter};
pub use frame::Frame;
pub use intake::Intake;
pub use laws::{
    a_message_in_front_is_the_first_frame, a_message_is_read_back,
    a_message_of_sound_fields_is_whole, frames_are_those_of_the_joined_pieces, frames_exist,
    no_whole_message_begins_another, nothing_stands_and_is_open, one_list_of_frames, one_reading,
};
pub use splitting::{fields, fields_over, into_fields};
pub use tag::{BEGIN_STRING, BODY_LENGTH, CHECK_SUM, MSG_TYPE};
