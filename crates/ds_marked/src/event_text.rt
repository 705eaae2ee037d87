//! An event as it is written: the name of its signal and its sign, both lent, so that the text of
//! an event takes no memory.
ghost use Rattle.std.specs.Prelude.{◌≡◌, ◌<◌, ◌++◌, length};
ghost use Rattle.ds_marked.specs.Graph.{Graph};
ghost use Rattle.ds_marked.specs.Log.{event_text, sign as sign_of, text_of_event};

use crate::{Event, Kind, Marked};
use ds_base::EventId;

/// The text of an event, in two pieces, of which the second one is `+`, `-`, or empty for a dummy.
#[derive(Clone, Copy)]
pub struct EventText<'a> {
    pub name: &'a [u8],
    pub sign: &'static [u8],
}

impl Kind {
    /// The sign of such an event.
    pub fn sign(self) -> &'static [u8]
        ensures { result.now ≡ sign_of self }
    {
        match self {
            Kind::Rise => b"+",
            Kind::Fall => b"-",
            Kind::Dummy => b"",
        }
    }
}

impl Event {
    /// The event as it is written.
    pub fn text(&self) -> EventText<'_>
        ensures { result.name.now ++ result.sign.now ≡ event_text self.now }
    {
        EventText {
            name: self.signal.as_slice(),
            sign: self.kind.sign(),
        }
    }
}

impl Marked {
    /// The event with a number, as it is written.
    pub fn text(&self, event: EventId) -> EventText<'_>
        requires { event < length self.now.events }
        ensures { result.name.now ++ result.sign.now ≡ text_of_event self.now event }
    {
        self.events()[event.index()].text()
    }
}
