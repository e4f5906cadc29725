//! The channel by which connections come to a worker.

use crate::bell::Bell;
use crate::posts::Posts;
use crossbeam_channel::{Receiver, Sender};
use gu_terms::FirmId;
use std::alloc::{AllocError, Global};
use std::sync::Wait;

/// A connection that was accepted, and is served from now on.
#[derive(Drop)]
pub struct Call<C> {
    /// The connection itself.
    pub stream: C,
    /// Its number, from 1 on: each connection of a day has another.
    pub number: u64,
    /// The port of its peer, or 0.
    pub port: u64,
    /// The firm at whose own door it came, if it came by one.
    pub door: Option<FirmId>,
}

/// The sender of connections to a worker. Dropping it wakes the worker, which then knows that no more come.
pub struct CallSender<'a, C: Drop, B: Bell> {
    to: Sender<Call<C>>,
    posts: &'a Posts<B>,
    worker: usize,
}

impl<C: Drop, B: Bell> Drop for CallSender<'_, C, B> {
    fn drop(self) {
        let CallSender { to, posts, worker } = self;
        drop(to);
        if let Some(post) = posts.post(worker) {
            post.ring();
        }
    }
}

/// Creates the two ends of the channel of connections to a worker with this many places.
pub fn calls<'a, C: Drop, B: Bell>(
    alloc: Global,
    posts: &'a Posts<B>,
    worker: usize,
    places: usize,
) -> Result<(CallSender<'a, C, B>, Receiver<Call<C>>), AllocError> {
    let (to, from) = crossbeam_channel::bounded(alloc, places)?;
    Ok((CallSender { to, posts, worker }, from))
}

impl<C: Drop, B: Bell> CallSender<'_, C, B> {
    /// Sends the worker a connection, and wakes it. If the worker is gone, the connection is dropped.
    pub fn send<R: Wait>(&self, rt: &R, call: Call<C>) {
        let Some(post) = self.posts.post(self.worker) else {
            return;
        };
        post.add_connection();
        if self.to.send(rt, call).is_err() {
            post.remove_connection();
        }
        post.ring();
    }
}
