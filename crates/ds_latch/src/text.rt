ghost use Rattle.std.specs.Prelude.{◌≡◌, ◌<◌, ◌++◌, length};
ghost use Rattle.ds_marked.specs.Log.{text_of_event};

use crate::Plan;
use ds_base::EventId;
use ds_marked::EventText;

/// The text of an event of a plan's graph: its name, which is lent, and its sign.
pub fn event_text<'a>(plan: &'a Plan<'_>, event: EventId) -> EventText<'a>
    requires { event < length plan.now.graph.events }
    ensures { result.name.now ++ result.sign.now ≡ text_of_event plan.now.graph event }
{
    plan.graph().text(event)
}
