//! What holds of every command. Each function does nothing, and its contract is the law.
ghost use Rattle.nextest_config_resolution_commands.specs.Laws.{AcceptedCommand, OneSplit, WordsByPieces};

/// The words of a text are those that its pieces make up, and it has none where no pieces do.
pub fn words_by_pieces()
    ensures { WordsByPieces }
{}

/// A text has one list of words at most.
pub fn one_split()
    ensures { OneSplit }
{}

/// A value is read as a command exactly if it is that command by what stands under its keys, in
/// whatever order they are looked at, and by the pieces of its words.
pub fn accepted_command()
    ensures { AcceptedCommand }
{}
