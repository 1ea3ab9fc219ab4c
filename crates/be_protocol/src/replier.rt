//! What answers the lines of a conversation.

ghost use Rattle.std.specs.Prelude.{◌≡◌, ℕ, None};
ghost use Rattle.be_io.specs.Lines as line;
ghost use Rattle.be_io.specs.Outside.{sink_state};
ghost use Rattle.be_protocol.specs.Conduct.{GivesReply};

use crate::ends::SessionEnd;
use be_io::{Sink, SinkFault};

/// How the answer to a line went.
#[derive(Clone, Copy, Debug, PartialEq, Eq)]
pub struct Turn {
    /// How the reply ends the conversation, where it does; the same where only a part of it was written.
    pub by: Option<SessionEnd>,
    pub written: Result<(), SinkFault>,
}

/// Something that answers the lines of a conversation.
pub trait Replier {
    ghost use Rattle.be_model.specs.Schemas.{Attributes};
    ghost use Rattle.be_protocol.specs.Conduct.{Conduct, KeptByReplier};

    // what its conduct speaks of, as plain data
    ghost State: { Type 0 };

    ghost state: { Self → State };

    // what no call changes
    ghost kept: { Self → KeptByReplier };

    // what a line asks of it, and what its calls make of its state
    ghost conduct: { Attributes → Conduct State };

    // it may be asked
    ghost IsReady: { Self → Type 0 };

    /// Answers a line of text. It may wait before it does, unless more of the input was read ahead: then it is told so.
    fn answer<K: Sink>(&mut self, text: &[u8], ahead: bool, out: &mut K) -> Turn
        requires ready { IsReady self.old }
        ensures gives { let m = conduct (kept self.old).schema in
            GivesReply m (m.asks (line.text text.now)) (state self.old) (state self.new)
            (sink_state K.Sink out.old) (sink_state K.Sink out.new) result.by result.written }
        // It goes on unless the reply ended the conversation.
        ensures ready { result.by ≡ None → IsReady self.new }
        ensures kept { kept self.new ≡ kept self.old }
        ensures beside { K.kept_by_write out.new ≡ K.kept_by_write out.old };

    /// Refuses a line over the limit.
    fn refuse_long<K: Sink>(&mut self, out: &mut K) -> Turn
        requires ready { IsReady self.old }
        ensures gives { (n : ℕ) → let m = conduct (kept self.old).schema in
            GivesReply m (m.asks (line.long n)) (state self.old) (state self.new)
            (sink_state K.Sink out.old) (sink_state K.Sink out.new) result.by result.written }
        ensures ready { result.by ≡ None → IsReady self.new }
        ensures kept { kept self.new ≡ kept self.old }
        ensures beside { K.kept_by_write out.new ≡ K.kept_by_write out.old };

    /// Is called between two lines, every so often.
    fn tend(&mut self)
        requires ready { IsReady self.old }
        ensures tends { (conduct (kept self.old).schema).Tends (state self.old) (state self.new) }
        ensures ready { IsReady self.new }
        ensures kept { kept self.new ≡ kept self.old };

    /// Is called at the end of a conversation that no reply ended.
    fn leave(&mut self)
        requires ready { IsReady self.old }
        ensures leaves { (conduct (kept self.old).schema).Leaves (state self.old) (state self.new) }
        ensures kept { kept self.new ≡ kept self.old };
}
