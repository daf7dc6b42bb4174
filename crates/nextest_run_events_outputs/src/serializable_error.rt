// An error and its causes, as texts.
ghost use Rattle.std.specs.Prelude.{◌≡◌, Some, IfOk};
ghost use Rattle.std.specs.Iterator.{YieldsFirst, item_count};
ghost use Rattle.nextest_run_events_outputs.specs.Chain.{sources_of, nearest_source};

use nextest_text::{Listing, Text};
use std::alloc::{AllocError, Global};
use std::error::Error;
use std::fmt;
use std::marker::Model;

/// An error and what it came from, as texts.
#[derive(Clone, Debug, PartialEq, Eq)]
pub struct ErrorChain {
    /// What the error says.
    pub message: Text,
    /// What its causes say, the nearest first.
    pub causes: Listing<Text>,
}

// One call drops it, whoever holds it.
impl Drop for ErrorChain {
    fn drop(self) {
        let Self {
            message: _,
            causes: _,
        } = self;
    }
}

/// An error that can be kept and sent: what it says, and what its causes say. In a clause it is
/// that chain.
#[derive(Clone, Debug, PartialEq, Eq)]
pub struct SerializableError {
    message: Text,
    causes: Listing<Text>,
}

// One call drops it, whoever holds it.
impl Drop for SerializableError {
    fn drop(self) {
        let Self {
            message: _,
            causes: _,
        } = self;
    }
}

impl Model for SerializableError {
    ghost use Rattle.nextest_run_events_outputs.specs.declared.serializable_error.ErrorChain.{ErrorChain};

    ghost Value = { ErrorChain };

    ghost view = { λ e. record { message = e.message; causes = e.causes } };

    ghost inverse = { λ c. record { message = c.message; causes = c.causes } };
}

impl SerializableError {
    /// The error of a chain, whose texts are copied. It fails only on allocation.
    pub fn new(alloc: Global, chain: &ErrorChain) -> Result<Self, AllocError>
        ensures { IfOk result (λ error. error ≡ chain.now) }
    {
        Ok(SerializableError::from_message_and_causes(
            Text::from_str(alloc, chain.message.as_str())?,
            chain.causes.clone()?,
        ))
    }

    /// The error that says `message` and has these causes, the nearest first.
    pub fn from_message_and_causes(message: Text, causes: Listing<Text>) -> Self
        ensures { result ≡ record { message = message; causes = causes } }
    {
        SerializableError { message, causes }
    }

    /// What the error says.
    pub fn message(&self) -> &str
        ensures { result.now ≡ self.now.message }
    {
        self.message.as_str()
    }

    /// What its causes say, the nearest first.
    pub fn causes(&self) -> &[Text]
        ensures { result.now ≡ self.now.causes }
    {
        self.causes.as_slice()
    }

    /// Its causes, the nearest first: each an error with the causes behind it.
    pub fn sources(&self) -> SerializableErrorSources<'_>
        ensures { result ≡ sources_of self.now }
    {
        SerializableErrorSources {
            left: self.causes.as_slice(),
        }
    }

    /// Its nearest cause, an error with the causes behind it; `None` where it has no cause.
    pub fn source(&self) -> Option<SerializableErrorSource<'_>>
        ensures { result ≡ nearest_source self.now }
    {
        self.sources().next()
    }
}

impl fmt::Display for SerializableError {
    ghost output = { λ e. Some e.message };

    fn fmt<W: fmt::Write>(&self, f: &mut fmt::Formatter<W>) -> fmt::Result {
        f.write_str(self.message.as_str())
    }
}

impl Error for SerializableError {}

/// A cause of an error, lent: an error itself. In a clause it is the chain that begins with it.
#[derive(Debug, Drop)]
pub struct SerializableErrorSource<'a> {
    message: &'a Text,
    causes: &'a [Text],
}

impl<'a> Model for SerializableErrorSource<'a> {
    ghost use Rattle.nextest_run_events_outputs.specs.declared.serializable_error.ErrorChain.{ErrorChain};

    ghost Value = { ErrorChain };

    ghost view = { λ source. record { message = source.message.now; causes = source.causes.now } };
}

impl<'a> SerializableErrorSource<'a> {
    /// What the cause says.
    pub fn message(&self) -> &'a str
        ensures { result.now ≡ self.now.message }
    {
        self.message.as_str()
    }

    /// The causes behind it, the nearest first.
    pub fn sources(&self) -> SerializableErrorSources<'a>
        ensures { result ≡ sources_of self.now }
    {
        SerializableErrorSources { left: self.causes }
    }

    /// What it came from; `None` where it is the last cause.
    pub fn source(&self) -> Option<SerializableErrorSource<'a>>
        ensures { result ≡ nearest_source self.now }
    {
        self.sources().next()
    }
}

impl Clone for SerializableErrorSource<'_> {
    ghost is_clone = { λ original copy. copy ≡ original };

    fn clone(&self) -> Result<Self, AllocError> {
        Ok(SerializableErrorSource {
            message: self.message,
            causes: self.causes,
        })
    }
}

impl fmt::Display for SerializableErrorSource<'_> {
    ghost output = { λ source. Some source.message };

    fn fmt<W: fmt::Write>(&self, f: &mut fmt::Formatter<W>) -> fmt::Result {
        f.write_str(self.message.as_str())
    }
}

impl Error for SerializableErrorSource<'_> {}

/// The causes of an error, the nearest first. In a clause it is the list of those that are left.
#[derive(Debug, Drop)]
pub struct SerializableErrorSources<'a> {
    left: &'a [Text],
}

impl<'a> Model for SerializableErrorSources<'a> {
    ghost use Rattle.std.specs.Prelude.{List};
    ghost use Rattle.nextest_run_events_outputs.specs.Chain.{chains_of};
    ghost use Rattle.nextest_run_events_outputs.specs.declared.serializable_error.ErrorChain.{ErrorChain};

    ghost Value = { List ErrorChain };

    ghost view = { λ sources. chains_of sources.left.now };
}

impl<'a> Iterator for SerializableErrorSources<'a> {
    type Item = SerializableErrorSource<'a>;

    ghost next_gives = { YieldsFirst (λ left. left) };

    ghost remaining = { item_count (λ left. left) };

    fn next(&mut self) -> Option<SerializableErrorSource<'a>> {
        let (message, causes) = self.left.split_first()?;
        self.left = causes;
        Some(SerializableErrorSource { message, causes })
    }
}
