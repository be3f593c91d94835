// What is answered about the files of a play.

/// What is wrong with a trace and a file of replies.
#[derive(Clone, Copy, Debug, PartialEq, Eq)]
pub enum Finding {
    /// No report has this text. Lines are counted from 1, and this is the first that can't stand where it does, or one more than there
    /// are lines where the text ends too early.
    Text { line: u64 },
    /// The first of the four points that fails, from 1 to 4: docs/FITS.md, "The four points".
    Point { number: u8 },
}

/// Whether files are those of a play.
#[derive(Clone, Copy, Debug, PartialEq, Eq)]
pub enum Verdict {
    /// They are.
    Yes,
    /// They are not.
    No(Finding),
}
