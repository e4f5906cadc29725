//! The messages kept for resending.

ghost use Rattle.std.specs.Prelude.{◌≡◌, ◌≤◌, [], ◌∷◌, length, slice_get, take, drop, IfOk};
ghost use Rattle.std.specs.Option.{option_copied, option_to_list};
ghost use Rattle.circular_buffer.specs.Buffer.{buffer};
ghost use Rattle.gu_msgs.specs.Written.{outbound_of};
ghost use Rattle.gu_session.specs.Sending.{sent_in};
ghost use Rattle.gu_session.specs.SeqNums.{IsSeqNum};
ghost use Rattle.gu_session.specs.Ascending.{AreBelow, AreFrom, IsAscending};
ghost use Rattle.gu_session.specs.Sound.{extended};

use crate::seq_num::SeqNum;
use circular_buffer::HeapCircularBuffer;
use gu_msgs::OutboundRef;
use gu_msgs::outbound::{Application, Body};
use gu_terms::Moment;
use std::alloc::{AllocError, Global};
use std::marker::Model;
use std::slice;

/// The most messages kept.
const MOST_KEPT: usize = 4096;

/// An application message as first sent.
#[derive(Clone, Copy)]
pub struct Sent {
    pub number: SeqNum,
    pub time: Moment,
    pub message: Application,
}

/// The last messages sent, with room for 4,096 of them or for none.
pub struct SentRing {
    ring: Option<HeapCircularBuffer<Sent>>,
}

impl Drop for SentRing {
    fn drop(self) {
        let SentRing { ring } = self;
        drop(ring);
    }
}

impl Model for SentRing {
    ghost use Rattle.std.specs.Prelude.{[]};
    ghost use Rattle.std.specs.Option.{option_map_or};
    ghost use Rattle.circular_buffer.specs.Buffer.{Buffer, buffer};
    ghost use Rattle.gu_session.specs.declared.sent_ring.Sent.{Sent};

    ghost Value = { Buffer Sent };

    ghost view = { λ k. option_map_or (λ ring. ring) k.ring (buffer [] 0) };
}

impl SentRing {
    /// Returns an empty ring without room.
    pub fn new() -> Self
        ensures { result ≡ buffer [] 0 }
    {
        SentRing { ring: None }
    }

    /// Returns an empty ring with room for all messages to keep.
    pub fn with_room(alloc: Global) -> Result<Self, AllocError>
        ensures { IfOk result (λ kept. kept ≡ buffer [] 4096) }
    {
        let ring = HeapCircularBuffer::with_capacity(alloc, MOST_KEPT)?;
        Ok(SentRing { ring: Some(ring) })
    }

    /// Returns the number of messages.
    pub fn len(&self) -> usize
        ensures { result ≡ length self.now.items }
    {
        match &self.ring {
            Some(ring) => ring.len(),
            None => 0,
        }
    }

    /// Returns the message at an index, the oldest at 0.
    pub fn get(&self, place: usize) -> Option<&Sent>
        ensures { option_copied result ≡ slice_get self.now.items place }
    {
        match &self.ring {
            Some(ring) => ring.get(place),
            None => None,
        }
    }

    /// Returns the number of messages numbered below this one. Numbers ascend.
    pub fn place_of(&self, number: u64) -> usize
        requires { IsAscending self.now.items }
        ensures below { AreBelow number (take result self.now.items) }
        ensures above { AreFrom number (drop result self.now.items) }
    {
        let mut low = 0;
        let mut high = self.len();
        while low < high {
            let middle = low + (high - low) / 2;
            match self.get(middle) {
                Some(sent) if sent.number.get() < number => low = middle + 1,
                _ => high = middle,
            }
        }
        low
    }

    /// Keeps a message after the others. If there is no room, the oldest is dropped.
    fn push(&mut self, sent: &Sent)
        ensures { self.new ≡ extended self.old (sent.now ∷ []) }
    {
        if let Some(ring) = &mut self.ring {
            ring.extend_from_slice(slice::from_ref(sent));
        }
    }

    /// Keeps a message that is sent, if it is an application message.
    pub fn keep(&mut self, message: &OutboundRef<'_>)
        requires number { IsSeqNum message.now.msg_seq_num }
        requires few { length self.old.items ≤ self.old.capacity }
        ensures { self.new ≡ extended self.old (option_to_list (sent_in (outbound_of message.now))) }
    {
        if let Some(sent) = &sent_in(message) {
            self.push(sent);
        }
    }
}

/// Returns the form in which a message is kept, if it is an application message.
fn sent_in(message: &OutboundRef<'_>) -> Option<Sent>
    requires { IsSeqNum message.now.msg_seq_num }
    ensures { result ≡ sent_in (outbound_of message.now) }
{
    let Body::Application(application) = message.body else {
        return None;
    };
    let number = SeqNum::new(message.msg_seq_num)?;
    Some(Sent {
        number,
        time: message.sending_time,
        message: *application,
    })
}
