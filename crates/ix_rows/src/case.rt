// The cases, as they are written.

/// A play, and how its files are changed.
#[derive(Drop)]
pub struct Case<'a> {
    /// The folder of its files.
    pub play: &'a str,
    /// The name of its file of replies.
    pub replies: &'a str,
    /// The changes of its trace, as they are written.
    pub edits: Option<&'a str>,
}

impl<'a> Case<'a> {
    /// The case that a line has.
    pub fn of(line: &'a str) -> Case<'a> {
        let (files, edits) = match line.split_once(": ") {
            Some((files, edits)) => (files, Some(edits)),
            None => (line, None),
        };
        let (play, replies) = files.split_once("/").unwrap_or((files, "replies.pcap"));
        Case {
            play,
            replies,
            edits,
        }
    }
}
