//! What is left after an error.
ghost use Rattle.std.specs.Prelude.{◌≡◌};

/// What is left after an error: the error, and the place, to which nothing more is written.
#[derive(Drop)]
pub struct Stopped<P, E> {
    place: P,
    error: E,
}

impl<P, E> Stopped<P, E> {
    /// Returns the place and the error at which something stopped. No call returns the place by value.
    pub fn new(place: P, error: E) -> Self
        ensures place { result.place ≡ place }
        ensures error { result.error ≡ error }
    {
        Stopped { place, error }
    }

    /// Returns a reference to the place.
    pub fn place(&self) -> &P
        ensures { result.now ≡ self.now.place }
    {
        &self.place
    }
}

impl<P, E: Copy> Stopped<P, E> {
    /// Returns the error.
    pub fn error(&self) -> E
        ensures { result ≡ self.now.error }
    {
        self.error
    }
}
