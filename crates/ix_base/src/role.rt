// The roles of a host's files.

/// What a file is to the program. The first six are read, the last three are written.
#[derive(Clone, Copy, Debug, PartialEq, Eq)]
pub enum Role {
    /// The configuration.
    Conf,
    /// The capture that is played.
    Capture,
    /// The script: what is played, and what the control plane does meanwhile.
    Script,
    /// A trace that is checked.
    GivenTrace,
    /// A replies file that is checked.
    GivenReplies,
    /// The other stack's configuration.
    Other,
    /// The reply frames, as a capture.
    Replies,
    /// The trace of every connection.
    Trace,
    /// The script that a live play came to.
    Played,
}

/// The two kinds of roles.
#[derive(Clone, Copy, Debug, PartialEq, Eq)]
pub enum Kind {
    Reading,
    Writing,
}

/// A call of the host failed. It moved no byte.
#[derive(Clone, Copy, Debug, PartialEq, Eq)]
pub struct Failed;
