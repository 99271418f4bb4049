//! What answers requests.

ghost use Rattle.pl_table.specs.Requests.Request.{Query};
ghost use Rattle.pl_core.specs.Appending.{AppendsTo, reply_in};
ghost use Rattle.pl_core.specs.Reply.{FitsReply};
ghost use Rattle.pl_core.specs.declared.reply.Reply.{Reply as Told};

use pl_core::{Answer, Reply};
use pl_table::Request;
use std::alloc::Global;

/// What answers requests. Whoever asks has a pass, which a call changes.
///
/// A call is one link: the pass before it, the request, the reply, and the pass after it. A gate says
/// which links there may be, and which passes are its own.
pub trait Gate {
    /// What a caller holds.
    type Pass;

    // The passes that are its own.
    ghost owns: { Self → Self.Pass → Type 0 };

    // The calls that there may be: the pass before, the request, the reply, and the pass after.
    ghost calls: { Self → Self.Pass → Query → Told → Self.Pass → Type 0 };

    /// The memory of the page that `call` reads a reply with. No clause speaks of it: each `Global` is a handle to the one memory
    /// of the process, and to call it changes nothing.
    fn alloc(&self, pass: &Self::Pass) -> Global;

    /// Answers the request, but puts the bytes of a page after those in `page`, so that they are copied once.
    fn call_onto(&self, pass: &mut Self::Pass, request: Request, page: &mut Vec<u8>) -> Answer
        // The pass is the gate's.
        requires own { owns self.now pass.old }
        // The pass stays the gate's.
        ensures own { owns self.now pass.new }
        // It was one of the gate's calls. Its reply is the answer with the bytes that were appended
        // (`reply_in` of pl_core).
        ensures call { calls self.now pass.old request
            (reply_in result page.old.items page.new.items) pass.new }
        // The reply can be written.
        ensures fits { FitsReply (reply_in result page.old.items page.new.items) }
        // The buffer keeps its bytes and its memory, and a page's bytes alone are appended
        // (`AppendsTo` of pl_core).
        ensures page { AppendsTo result page.old page.new };

    /// Answers the request. The reply can be written.
    fn call(&self, pass: &mut Self::Pass, request: Request) -> Reply
        // The pass is the gate's.
        requires own { owns self.now pass.old }
        // The pass stays the gate's.
        ensures own { owns self.now pass.new }
        // It was one of the gate's calls.
        ensures call { calls self.now pass.old request result pass.new }
        // The reply can be written.
        ensures fits { FitsReply result }
    {
        let mut page = Vec::new(self.alloc(pass));
        let answer = self.call_onto(pass, request, &mut page);
        answer.into_reply(page)
    }
}
