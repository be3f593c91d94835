// Laws on all answers.
ghost use Rattle.ix_appdef.specs.Answers.{AnswersGrow, NothingFirst};

/// Nothing happens here: the contract says that what is told only adds to the answer of each application. The answer to a longer stream
/// begins with the answer to its beginning, and an answer once a connection stands begins with the one before. Before anything is told nothing is answered.
pub fn answers_grow()
    ensures grow { AnswersGrow }
    ensures first { NothingFirst }
{}
