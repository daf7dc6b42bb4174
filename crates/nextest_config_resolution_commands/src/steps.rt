// What becomes of each character of a command, by where it stands.
ghost use Rattle.std.specs.Prelude.{◌≡◌};
ghost use Rattle.nextest_config_resolution_commands.specs.Splitting as split;

/// Where a reading of a text stands, that divides it into words.
#[derive(Clone, Copy)]
pub(crate) enum Place {
    /// Before a word.
    Between,
    /// Before a word, behind a backslash.
    BetweenEscaped,
    /// In a word, outside of quotes.
    Inside,
    /// There, behind a backslash.
    InsideEscaped,
    /// Between single quotes.
    Literal,
    /// Between double quotes.
    Quoted,
    /// There, behind a backslash.
    QuotedEscaped,
    /// In a comment.
    Comment,
}

/// What a character is.
#[derive(Clone, Copy)]
pub(crate) enum Kind {
    /// A line feed.
    LineFeed,
    /// A space or a tab.
    Blank,
    /// A single quote.
    Quote,
    /// A double quote.
    DoubleQuote,
    /// A backslash.
    Backslash,
    /// A `#`.
    Hash,
    /// A `$` or a backtick, which a backslash takes between double quotes too.
    Taken,
    /// Any other.
    Other,
}

/// What becomes of a character, and where the reading stands behind it.
#[derive(Clone, Copy)]
pub(crate) enum SplitStep {
    /// It stands for nothing.
    Pass(Place),
    /// It stands for itself, in the word.
    Take(Place),
    /// So does the backslash before it.
    Keep(Place),
    /// It ends the word.
    End,
}

/// What a character is.
pub(crate) fn kind_of(character: char) -> Kind
    ensures { result ≡ split.kind_of character }
{
    match character {
        '\n' => Kind::LineFeed,
        ' ' | '\t' => Kind::Blank,
        '\'' => Kind::Quote,
        '"' => Kind::DoubleQuote,
        '\\' => Kind::Backslash,
        '#' => Kind::Hash,
        '$' | '`' => Kind::Taken,
        _ => Kind::Other,
    }
}

/// What becomes of a character at a place.
pub(crate) fn step_at(place: Place, kind: Kind) -> SplitStep
    ensures { result ≡ split.step_at place kind }
{
    match place {
        Place::Between => between(kind),
        Place::BetweenEscaped => escaped(Place::Between, kind),
        Place::Inside => inside(kind),
        Place::InsideEscaped => escaped(Place::Inside, kind),
        Place::Literal => literal(kind),
        Place::Quoted => quoted(kind),
        Place::QuotedEscaped => quoted_escaped(kind),
        Place::Comment => comment(kind),
    }
}

// Before a word.
fn between(kind: Kind) -> SplitStep
    ensures { result ≡ split.between kind }
{
    match kind {
        Kind::LineFeed | Kind::Blank => SplitStep::Pass(Place::Between),
        Kind::Quote => SplitStep::Pass(Place::Literal),
        Kind::DoubleQuote => SplitStep::Pass(Place::Quoted),
        Kind::Backslash => SplitStep::Pass(Place::BetweenEscaped),
        Kind::Hash => SplitStep::Pass(Place::Comment),
        Kind::Taken | Kind::Other => SplitStep::Take(Place::Inside),
    }
}

// In a word, outside of quotes.
fn inside(kind: Kind) -> SplitStep
    ensures { result ≡ split.inside kind }
{
    match kind {
        Kind::LineFeed | Kind::Blank => SplitStep::End,
        Kind::Quote => SplitStep::Pass(Place::Literal),
        Kind::DoubleQuote => SplitStep::Pass(Place::Quoted),
        Kind::Backslash => SplitStep::Pass(Place::InsideEscaped),
        Kind::Hash | Kind::Taken | Kind::Other => SplitStep::Take(Place::Inside),
    }
}

// Behind a backslash outside of quotes, which stood at a place.
fn escaped(before: Place, kind: Kind) -> SplitStep
    ensures { result ≡ split.after_backslash before kind }
{
    match kind {
        Kind::LineFeed => SplitStep::Pass(before),
        _ => SplitStep::Take(Place::Inside),
    }
}

// Between single quotes.
fn literal(kind: Kind) -> SplitStep
    ensures { result ≡ split.literal kind }
{
    match kind {
        Kind::Quote => SplitStep::Pass(Place::Inside),
        _ => SplitStep::Take(Place::Literal),
    }
}

// Between double quotes.
fn quoted(kind: Kind) -> SplitStep
    ensures { result ≡ split.in_double_quotes kind }
{
    match kind {
        Kind::DoubleQuote => SplitStep::Pass(Place::Inside),
        Kind::Backslash => SplitStep::Pass(Place::QuotedEscaped),
        _ => SplitStep::Take(Place::Quoted),
    }
}

// Between double quotes, behind a backslash.
fn quoted_escaped(kind: Kind) -> SplitStep
    ensures { result ≡ split.quoted_escaped kind }
{
    match kind {
        Kind::LineFeed => SplitStep::Pass(Place::Quoted),
        Kind::DoubleQuote | Kind::Backslash | Kind::Taken => SplitStep::Take(Place::Quoted),
        _ => SplitStep::Keep(Place::Quoted),
    }
}

// In a comment.
fn comment(kind: Kind) -> SplitStep
    ensures { result ≡ split.comment kind }
{
    match kind {
        Kind::LineFeed => SplitStep::Pass(Place::Between),
        _ => SplitStep::Pass(Place::Comment),
    }
}
