//! Lists of messages.

ghost use Rattle.std.specs.Prelude.{◌≡◌, ◌<◌, ◌^◌, ◌∷◌, [], length, slice_get, Some, IfOk};

use gu_msgs::outbound::Body;
use std::alloc::{AllocError, Global};
use std::borrow::CowSlice;
use std::marker::Model;
use std::slice;

/// A list of messages, in the order in which they are to be sent, borrowed or owned. To a contract they are their list.
#[derive(Drop)]
pub struct Messages<'a> {
    bodies: CowSlice<'a, Body>,
}

impl<'a> Model for Messages<'a> {
    ghost use Rattle.std.specs.Prelude.{List};
    ghost use Rattle.std.specs.Cow.{cow_slice_items};
    ghost use Rattle.gu_msgs.specs.declared.outbound.Body.{Body};

    ghost Value = { List Body };

    ghost view = { λ m. cow_slice_items m.bodies };
}

impl<'a> Messages<'a> {
    /// Returns no messages.
    pub fn none() -> Self
        ensures { result ≡ [] }
    {
        Messages::borrowed(&[])
    }

    /// Returns these messages, borrowed.
    pub fn borrowed(bodies: &'a [Body]) -> Self
        ensures { result ≡ bodies.now }
    {
        Messages {
            bodies: CowSlice::Borrowed(bodies),
        }
    }

    /// Returns one owned message.
    pub fn one(alloc: Global, body: Body) -> Result<Self, AllocError>
        ensures { IfOk result (λ messages. messages ≡ body ∷ []) }
    {
        let mut bodies = Vec::with_capacity(alloc, 1)?;
        bodies.push_reserved(body);
        Ok(Messages {
            bodies: CowSlice::Owned(bodies),
        })
    }

    /// Returns two owned messages.
    pub fn two(alloc: Global, first: Body, second: Body) -> Result<Self, AllocError>
        ensures { IfOk result (λ messages. messages ≡ first ∷ second ∷ []) }
    {
        let mut bodies = Vec::with_capacity(alloc, 2)?;
        bodies.push_reserved(first);
        bodies.push_reserved(second);
        Ok(Messages {
            bodies: CowSlice::Owned(bodies),
        })
    }

    /// Returns the number of messages.
    pub fn len(&self) -> usize
        ensures len { result ≡ length self.now }
        ensures few { result < 2 ^ 63 }
    {
        self.bodies.as_slice().len()
    }

    /// Returns the message at an index.
    pub fn get(&self, place: usize) -> &Body
        requires { place < length self.now }
        ensures { slice_get self.now place ≡ Some result.now }
    {
        &self.bodies.as_slice()[place]
    }
}
