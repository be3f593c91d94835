// What holds of all lines.
ghost use Rattle.ix_lines.specs.Laws.{IsReadAgain, IsWrittenSo, HasNoFeed};

/// A line and its text belong together: the text of a line whose numbers fit their types is read as that line, what is read as a line is
/// its text, and no line has a line feed inside. It does nothing: its contract is the law.
pub fn lines_are_exact()
    ensures read_again { IsReadAgain }
    ensures written_so { IsWrittenSo }
    ensures one_line { HasNoFeed }
{}
