// The words of a command that is written as one text.
ghost use Rattle.std.specs.Prelude.{◌≡◌, ◌++◌, [], ℕ, List, IfOk, OnOk, encode_utf8};
ghost use Rattle.nextest_config_resolution_commands.specs.SoFar.{so_far};
ghost use Rattle.nextest_config_resolution_commands.specs.Splitting.{words_of};

use crate::steps::{Place, SplitStep, kind_of, step_at};
use nextest_text::{Listing, Text};
use std::alloc::{AllocError, Global};
use std::mem;

/// The words of a text, as a Unix shell divides them: by spaces, tabs and line feeds. What is
/// between single quotes stands for itself; between double quotes a backslash takes `"`, `\`, `$`
/// and a backtick, stands for nothing before a line feed, with it, and for itself before all else;
/// and elsewhere it takes any character, stands for nothing before a line feed, with it, and for
/// itself at the end. A `#` where a word would begin begins a comment, up to the next line feed or
/// the end. `None` where a quote isn't closed. It fails only on allocation.
pub fn split_words(alloc: Global, text: &str) -> Result<Option<Listing<Text>>, AllocError>
    ensures { IfOk result (λ words. words ≡ words_of text.now) }
{
    let mut so_far = WordsSoFar {
        words: Listing::new(alloc),
        word: String::new(alloc),
        place: Place::Between,
    };
    for character in text.chars() {
        so_far.take(alloc, character)?;
    }
    so_far.finish()
}

// The words of a text, as far as it was read.
#[derive(Drop)]
struct WordsSoFar {
    // Those that have ended.
    words: Listing<Text>,
    // What was read of the next one.
    word: String,
    // Where the reading stands.
    place: Place,
}

impl WordsSoFar {
    // Reads one character more.
    fn take(&mut self, alloc: Global, character: char) -> Result<(), AllocError>
        ensures { OnOk result ((ahead : List ℕ)
            → so_far self.old (encode_utf8 character ++ ahead) ≡ so_far self.new ahead) }
    {
        match step_at(self.place, kind_of(character)) {
            SplitStep::Pass(place) => self.place = place,
            SplitStep::Take(place) => {
                self.word.push(character)?;
                self.place = place;
            }
            SplitStep::Keep(place) => {
                self.word.push('\\')?;
                self.word.push(character)?;
                self.place = place;
            }
            SplitStep::End => {
                let word = mem::replace(&mut self.word, String::new(alloc));
                self.words.push(Text::from(word))?;
                self.place = Place::Between;
            }
        }
        Ok(())
    }

    // The words, where the text ends here.
    fn finish(self) -> Result<Option<Listing<Text>>, AllocError>
        ensures { IfOk result (λ words. words ≡ so_far self []) }
    {
        let WordsSoFar {
            mut words,
            mut word,
            place,
        } = self;
        match place {
            Place::Between | Place::Comment => return Ok(Some(words)),
            Place::Literal | Place::Quoted | Place::QuotedEscaped => return Ok(None),
            Place::Inside => {}
            Place::BetweenEscaped | Place::InsideEscaped => word.push('\\')?,
        }
        words.push(Text::from(word))?;
        Ok(Some(words))
    }
}
