// The commands of the program.
ghost use Rattle.ix_top.specs.Words.{IsAsked};

/// What the words after the program's name ask for.
#[derive(Clone, Copy)]
pub enum Command<'a> {
    /// To play a script over a capture.
    Play(PlayFiles<'a>),
    /// To check the files of a play.
    Check(PlayFiles<'a>),
}

/// The names of the files of a play.
#[derive(Clone, Copy)]
pub struct PlayFiles<'a> {
    pub conf: &'a str,
    pub script: &'a str,
    pub capture: &'a str,
    pub replies: &'a str,
    pub trace: &'a str,
}

/// The command that these words are, if they are one.
pub fn command_of(words: &[String]) -> Option<Command<'_>>
    ensures { IsAsked result words.now }
{
    let [command, conf, script, capture, replies, trace] = words else {
        return None;
    };
    let files = PlayFiles {
        conf: conf.as_str(),
        script: script.as_str(),
        capture: capture.as_str(),
        replies: replies.as_str(),
        trace: trace.as_str(),
    };
    match command.as_str() {
        "play" => Some(Command::Play(files)),
        "check" => Some(Command::Check(files)),
        _ => None,
    }
}
