//! How firms are served: how many threads and places there are, and when the day ends.

ghost use Rattle.std.specs.Prelude.{◌≡◌, ◌+◌, ◌*◌, ◌<◌, ◌≤◌, false, true};

/// How many sweepers there are.
pub const SWEEPERS: usize = 2;

/// How many seats a desk may have besides those of the sweepers.
const MOST_SEATS: usize = 62;

/// How firms are served.
#[derive(Clone, Copy, Debug, PartialEq, Eq)]
pub struct Service {
    /// How many threads serve connections.
    pub workers: usize,
    /// How many connections there may be: at once if the day goes on until it is closed, and otherwise in all.
    pub connections: usize,
    /// How many threads answer operators at the console.
    pub operators: usize,
    /// How many threads answer at the watch socket.
    pub watchers: usize,
    /// Whether connections come and go until the day is closed.
    pub is_until_closed: bool,
    ghost some: { 1 ≤ workers },
    ghost few: { workers + operators + watchers ≤ 62 },
    ghost one: { 1 ≤ connections },
    ghost most: { connections ≤ 1024 },
}

impl Service {
    /// Returns the service of a day that ends after this many connections, 1 to 32, each with a worker of its own.
    pub fn of_connections(connections: usize) -> Self
        requires { (1 ≤ connections) × (connections ≤ 32) }
        ensures workers { result.workers ≡ connections }
        ensures connections { result.connections ≡ connections }
        ensures operators { (result.operators ≡ 0) × (result.watchers ≡ 0) }
        ensures end { result.is_until_closed ≡ false }
    {
        Service {
            workers: connections,
            connections,
            operators: 0,
            watchers: 0,
            is_until_closed: false,
        }
    }

    /// Returns the service of a day that goes on until it is closed, with this many connections at once, 1 to 1,024, and this many workers,
    /// 1 to 60.
    pub fn until_closed(connections: usize, workers: usize) -> Self
        requires connections { (1 ≤ connections) × (connections ≤ 1024) }
        requires workers { (1 ≤ workers) × (workers ≤ 60) }
        ensures workers { result.workers ≡ workers }
        ensures connections { result.connections ≡ connections }
        ensures operators { (result.operators ≡ 0) × (result.watchers ≡ 0) }
        ensures end { result.is_until_closed ≡ true }
    {
        Service {
            workers,
            connections,
            operators: 0,
            watchers: 0,
            is_until_closed: true,
        }
    }

    /// Returns the same service with threads for the console and the watch, if there are such sockets: two for each, or one if the workers
    /// leave no more seats.
    pub fn with_operators(self, has_console: bool, has_watch: bool) -> Self
        requires { self.workers ≤ 60 }
        ensures workers { result.workers ≡ self.workers }
        ensures connections { result.connections ≡ self.connections }
        ensures end { result.is_until_closed ≡ self.is_until_closed }
    {
        let threads = if MOST_SEATS - self.workers < 4 { 1 } else { 2 };
        Service {
            operators: if has_console { threads } else { 0 },
            watchers: if has_watch { threads } else { 0 },
            workers: self.workers,
            connections: self.connections,
            is_until_closed: self.is_until_closed,
        }
    }

    /// Returns how many seats it needs, including those of the sweepers.
    pub fn seats(&self) -> usize
        ensures { result ≡ self.now.workers + self.now.operators + self.now.watchers + 2 }
    {
        self.workers + self.operators + self.watchers + SWEEPERS
    }

    /// Returns how many places each worker has: the fewest that are enough for all connections at once.
    pub fn places(&self) -> usize
        ensures enough { self.now.connections ≤ result * self.now.workers }
        ensures fewest { result * self.now.workers < self.now.connections + self.now.workers }
    {
        self.connections.div_ceil(self.workers)
    }

    /// Returns how many places the sessions of one firm may hold: all but one if the day goes on until it is closed and has more than one.
    pub fn most_of_a_firm(&self) -> u64
        ensures all_but_one { self.now.is_until_closed ≡ true → 2 ≤ self.now.connections → result + 1 ≡ self.now.connections }
        ensures all { self.now.is_until_closed ≡ false → self.now.connections ≤ result }
        ensures the_one { self.now.connections ≡ 1 → 1 ≤ result }
    {
        if self.is_until_closed && self.connections > 1 {
            self.connections as u64 - 1
        } else {
            u64::MAX
        }
    }
}
