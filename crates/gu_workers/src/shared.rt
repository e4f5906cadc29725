//! What the workers of a server share.

use gu_lease::Gate;
use gu_posts::Posts;
use gu_secrets::Secrets;
use gu_terms::FirmId;
use std::alloc::AllocError;

/// What the workers of a server share.
pub struct Shared<'a, A, B, C> {
    /// The firms of the reference, each of which may log on.
    pub firms: &'a [FirmId],
    /// The secrets that firms need to log on, if there are any.
    pub secrets: Option<&'a Secrets>,
    /// Whether first messages are looked at even without secrets, so that the log can name their faults.
    pub looks: bool,
    /// What decides who may be connected.
    pub admission: &'a A,
    /// The workers' posts, by which others reach them.
    pub posts: &'a Posts<B>,
    /// The gate of the desk: nothing leaves without its permit.
    pub gate: &'a Gate<C>,
}

impl<A, B, C> Clone for Shared<'_, A, B, C> {
    fn clone(&self) -> Result<Self, AllocError> {
        Ok(*self)
    }
}

impl<A, B, C> Copy for Shared<'_, A, B, C> {}
