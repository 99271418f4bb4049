//! A run: one step for each request, in order.

ghost use Rattle.std.specs.Prelude.{◌≡◌, IfOk, OnErr, reverse, vec_len};
ghost use Rattle.std.specs.List.{All};
ghost use Rattle.pl_core.specs.Reply.{FitsReply};
ghost use Rattle.pl_core.specs.Run.{IsRun};

use crate::db::Db;
use crate::reply::Reply;
use pl_table::Request;
use std::alloc::AllocError;

// The requests from the last to the first, so that a pop takes the first.
fn last_first(requests: Vec<(u64, Request)>) -> Vec<(u64, Request)>
    ensures value { result.items ≡ reverse requests.items }
    ensures len { vec_len result ≡ vec_len requests }
{
    let mut left = requests;
    left.reverse();
    left
}

impl Db {
    /// Takes one step for each request, each under the pass of its number, and returns the replies in
    /// the same order. Room for them is made first: if that fails, no step is taken.
    pub fn run(&mut self, requests: Vec<(u64, Request)>) -> Result<Vec<Reply>, AllocError>
        // One reply a request, in order, each by one step (`IsRun`).
        ensures run { IfOk result (λ replies.
            IsRun self.old requests.items replies.items self.new) }
        // Each reply can be written.
        ensures fits { IfOk result (λ replies. All FitsReply replies.items) }
        // Out of memory, nothing has changed.
        ensures err { OnErr result (self.new ≡ self.old) }
    {
        let mut replies = Vec::with_capacity(self.alloc, requests.len())?;
        let mut left = last_first(requests);
        while let Some((pass_no, request)) = left.pop() {
            let reply = self.step(pass_no, request);
            replies.push(reply).unwrap();
        }
        Ok(replies)
    }
}
