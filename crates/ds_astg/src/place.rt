//! A place of a graph text.
ghost use Rattle.std.specs.Prelude.{◌≡◌};
ghost use Rattle.ds_astg.specs.Place.{named as named_on, between as between_on};
ghost use Rattle.ds_astg.specs.Links.{from_event, to_event, may_be as may_be_event};
ghost use Rattle.ds_astg.specs.Marking.{with_tokens};

/// The line on which a place first stands, and its arc so far: source, target and tokens.
#[derive(Clone, Copy, Debug, PartialEq, Eq)]
pub struct Place {
    pub line: u64,
    pub source: Option<u32>,
    pub target: Option<u32>,
    pub tokens: Option<u8>,
}

impl Place {
    /// A place by its name, without an arc.
    pub fn named(line: u64) -> Self
        ensures { result ≡ named_on line }
    {
        Place {
            line,
            source: None,
            target: None,
            tokens: None,
        }
    }

    /// A place between two events.
    pub fn between(line: u64, source: u32, target: u32) -> Self
        ensures { result ≡ between_on line source target }
    {
        Place {
            line,
            source: Some(source),
            target: Some(target),
            tokens: None,
        }
    }

    /// With this source.
    pub fn from_event(self, event: u32) -> Self
        ensures { result ≡ from_event self event }
    {
        Place {
            line: self.line,
            source: Some(event),
            target: self.target,
            tokens: self.tokens,
        }
    }

    /// With this target.
    pub fn to_event(self, event: u32) -> Self
        ensures { result ≡ to_event self event }
    {
        Place {
            line: self.line,
            source: self.source,
            target: Some(event),
            tokens: self.tokens,
        }
    }

    /// With tokens.
    pub fn with_tokens(self, tokens: u8) -> Self
        ensures { result ≡ with_tokens self tokens }
    {
        Place {
            line: self.line,
            source: self.source,
            target: self.target,
            tokens: Some(tokens),
        }
    }
}

/// Whether an end is this event or none yet.
pub fn may_be(end: Option<u32>, event: u32) -> bool
    ensures { result ≡ may_be_event end event }
{
    match end {
        None => true,
        Some(other) => other == event,
    }
}
