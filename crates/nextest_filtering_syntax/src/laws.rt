//! What holds of every filterset. Each function does nothing, and its contract is the law.
ghost use Rattle.nextest_filtering_syntax.specs.Laws.{ReadsBack, ReadsBackExactly, OneTree};

/// What is printed of a filterset is read as that filterset, where no text that was written without
/// its sign begins with one.
pub fn printed_reads_back()
    ensures { ReadsBack }
{}

/// What is printed of a tree is read as that tree exactly where the tree is a filterset of some
/// text, and no text in it that was written without its sign begins with one.
pub fn reads_back_exactly()
    ensures { ReadsBackExactly }
{}

/// A text is at most one filterset.
pub fn one_tree()
    ensures { OneTree }
{}
