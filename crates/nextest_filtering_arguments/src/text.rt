// A text as an argument.
ghost use Rattle.std.specs.Prelude.{◌≡◌, ◌+◌, IfOk, OnOk, length};
ghost use Rattle.std.specs.List.{AllByRecursion};
ghost use Rattle.nextest_filtering_escapes.specs.Spans.{IsSpanOf};
ghost use Rattle.nextest_filtering_arguments.specs.Blanks.{IsTrimmed};
ghost use Rattle.nextest_filtering_arguments.specs.Faults.{IsSuffix, Lies, count};
ghost use Rattle.nextest_filtering_arguments.specs.Texts.{IsFront, IsPlaced, IsLookedAt, IsMeant, IsTextArgument};

use crate::cursor::{skip_blanks, trim_blanks_end};
use crate::error::ParseSingleError;
use crate::faults::Faults;
use nextest_filtering_ast::SourceSpan;
use nextest_filtering_escapes::{EscapeSpan, split_text, unescape};
use nextest_text::Text;
use std::alloc::{AllocError, Global};

/// A text that was read as an argument.
#[derive(Drop)]
pub struct TextArgument<'i> {
    /// What it stands for.
    pub text: Text,
    /// Where it stands, without the blanks around it.
    pub span: SourceSpan,
    /// What follows it behind blanks.
    pub rest: &'i str,
}

// Tells of bad escapes, which stand in `ahead`.
fn report_spans(
    faults: &mut Faults<'_>,
    ahead: &str,
    spans: &[EscapeSpan],
) -> Result<(), AllocError>
    requires suffix { IsSuffix ahead.now faults.old.input }
    requires spans { AllByRecursion (IsSpanOf ahead.now) spans.now }
    ensures input { faults.new.input ≡ faults.old.input }
    ensures reported { OnOk result (count faults.new ≡ count faults.old + length spans.now) }
{
    for span in spans {
        let place = faults.span_within(ahead, span.offset, span.length);
        faults.report(ParseSingleError::InvalidEscapeCharacter(place))?;
    }
    Ok(())
}

// Tells of each bad escape of `whole`, with which `ahead` begins.
fn report_escapes(
    alloc: Global,
    faults: &mut Faults<'_>,
    ahead: &str,
    whole: &str,
) -> Result<(), AllocError>
    requires suffix { IsSuffix ahead.now faults.old.input }
    requires front { IsFront whole.now ahead.now }
    ensures input { faults.new.input ≡ faults.old.input }
    ensures reported { OnOk result (IsLookedAt whole.now (count faults.old) (count faults.new)) }
{
    let read = unescape(alloc, whole)?;
    report_spans(faults, ahead, read.bad.as_slice())
}

// What `raw` stands for, which is `whole` without the blanks at its end; `ahead` begins with both.
// Tells of bad escapes and of a text that is empty.
fn meaning_of(
    alloc: Global,
    faults: &mut Faults<'_>,
    ahead: &str,
    whole: &str,
    raw: &str,
) -> Result<Text, AllocError>
    requires suffix { IsSuffix ahead.now faults.old.input }
    requires front { IsFront whole.now ahead.now }
    requires trimmed { IsTrimmed whole.now raw.now }
    ensures input { faults.new.input ≡ faults.old.input }
    ensures meant { IfOk result
        (λ found. IsMeant raw.now (count faults.old) (count faults.new) found) }
{
    if raw.is_empty() {
        let span = faults.span(ahead, 0);
        faults.report(ParseSingleError::InvalidString(span))?;
        return Ok(Text::new(alloc));
    }
    let read = unescape(alloc, raw)?;
    if read.bad.is_empty() {
        return Ok(read.text);
    }
    report_escapes(alloc, faults, ahead, whole)?;
    Ok(read.text)
}

/// The text that comes next, behind blanks: it runs to the first `)` or `,` that isn't escaped,
/// blanks before that aside. An empty text is reported as `InvalidString`, each bad escape as
/// `InvalidEscapeCharacter`; the text is then what is left. It fails only on allocation.
pub fn text_argument<'i>(
    alloc: Global,
    faults: &mut Faults<'_>,
    text: &'i str,
) -> Result<TextArgument<'i>, AllocError>
    requires suffix { IsSuffix text.now faults.old.input }
    ensures input { faults.new.input ≡ faults.old.input }
    ensures lies { IfOk result (λ it. Lies faults.old.input it.span) }
    ensures placed { IfOk result (λ it. IsPlaced faults.old.input text.now it.rest.now it.span) }
    ensures reads { IfOk result
        (λ it. IsTextArgument text.now (count faults.old) (count faults.new) it.text it.rest.now) }
{
    let ahead = skip_blanks(text);
    let (whole, rest) = split_text(ahead);
    let raw = trim_blanks_end(whole);
    let span = faults.span(ahead, raw.len());
    let text = meaning_of(alloc, faults, ahead, whole, raw)?;
    Ok(TextArgument { text, span, rest })
}
