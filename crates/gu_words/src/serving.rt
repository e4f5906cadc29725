//! What a server is started with.

ghost use Rattle.std.specs.Prelude.{◌≡◌, ◌≤◌, unwrap_or};

/// A server whose day ends once it has accepted all its connections, and they have ended. Each number is within its range.
#[derive(Clone, Copy, Debug)]
pub struct Counted<'a> {
    /// How many connections it accepts: 1 to 32.
    pub connections: u16,
    /// The path of the socket of its operators, if one is named.
    pub console: Option<&'a str>,
    ghost one_connection: { 1 ≤ connections },
    ghost most_connections: { connections ≤ 32 },
}

/// A server whose day goes on until an operator closes it, however many connections come. Each number is within its range.
#[derive(Clone, Copy, Debug)]
pub struct UntilClosed<'a> {
    /// The path of the socket of its operators.
    pub console: &'a str,
    /// How many connections it has at once at most: 1 to 1,024.
    pub places: u16,
    /// How many threads serve the connections: 1 to 60, or as many as there are processors, if no number is named.
    pub workers: Option<u16>,
    ghost one_place: { 1 ≤ places },
    ghost most_places: { places ≤ 1024 },
    ghost one_worker: { 1 ≤ unwrap_or workers 1 },
    ghost most_workers: { unwrap_or workers 1 ≤ 60 },
}

/// How long a server goes on.
#[derive(Clone, Copy, Debug)]
pub enum Span<'a> {
    /// Until its last connection has ended.
    Counted(Counted<'a>),
    /// Until an operator closes it.
    UntilClosed(UntilClosed<'a>),
}

/// The file to which a server's day is written.
#[derive(Clone, Copy, Debug)]
pub struct Journal<'a> {
    /// The path of the file, or the address of the log.
    pub path: &'a str,
    /// Whether a day that is already there is resumed.
    pub resumes: bool,
    /// Whether the desk follows a log until it leads. A day that is there is resumed then, too.
    pub stands_by: bool,
}

/// What a server is started with. Each number is within its range.
#[derive(Clone, Copy, Debug)]
pub struct Serving<'a> {
    /// The path of the reference.
    pub reference: &'a str,
    /// The port of this machine on which it listens, if it has one: 1 to 65,535.
    pub port: Option<u16>,
    /// The path of the script that is run first, if one is named.
    pub script: Option<&'a str>,
    /// How long it goes on, with its connections and the socket of its operators.
    pub span: Span<'a>,
    /// How many accepted give-ups of one connection make one sweep: 0 to 1,000; 0 makes none.
    pub every: u16,
    /// The file to which the day is written as a script, if it is.
    pub journal: Option<Journal<'a>>,
    /// The path of the socket of those who may only look, if one is named.
    pub watch: Option<&'a str>,
    /// The path of the folder in which each firm has a socket of its own, its door, if one is named.
    pub doors: Option<&'a str>,
    /// The path of the file of the secrets with which firms log on, if one is named.
    pub secrets: Option<&'a str>,
    /// Whether what happens is written on standard error.
    pub log: bool,
    /// The largest percentage of the book's entries, and of a group's open offers, that one firm's sessions may make: 1 to 100.
    pub share: u16,
    ghost port_from_one: { 1 ≤ unwrap_or port 1 },
    ghost every_within: { every ≤ 1000 },
    ghost share_from_one: { 1 ≤ share },
    ghost share_to_all: { share ≤ 100 },
}

impl<'a> Serving<'a> {
    ghost use Rattle.gu_words.specs.ProgramWords.{console_of};

    /// Returns the path of the socket of its operators, if it has one.
    pub fn console(&self) -> Option<&'a str>
        ensures { result ≡ console_of self.now.span }
    {
        match self.span {
            Span::Counted(counted) => counted.console,
            Span::UntilClosed(until_closed) => Some(until_closed.console),
        }
    }
}
