//! A request: who asks, and what for.

ghost use Rattle.std.specs.Prelude.{◌≡◌, ◌↔◌, IsSome, IfSome};
ghost use Rattle.pl_table.specs.Requests.Request.{InRange, IsRequest};
ghost use Rattle.pl_table.specs.Requests.Asking.{asked_by, asked_in};

use crate::requests::act::Act;
use crate::requests::asking::Asking;
use crate::requests::head::Head;
use crate::requests::known::{act_fits, head_fits};
use std::marker::Model;

/// An act, and who asks for it. The act is in its ranges, and the block of a write or an offer is one
/// by the grammar of blocks.
#[derive(Drop)]
pub struct Request {
    head: Head,
    act: Act,
}

impl Model for Request {
    ghost use Rattle.pl_table.specs.Requests.Request.{Query, IsRequest};

    ghost Value = { Query };

    ghost view = { λ r. record { head = r.head; act = r.act } };

    ghost invariant = { λ r. IsRequest (record { head = r.head; act = r.act }) };
}

impl Request {
    /// The request of this principal for this act. `None` if the act is not in its ranges; the
    /// arguments are dropped then.
    pub fn new(head: Head, act: Act) -> Option<Request>
        // It is `None` exactly if the act is not in its ranges (`InRange`).
        ensures found { IsSome result ↔ InRange act }
        // The head and the act are those given.
        ensures some { IfSome result (λ r. (r.head ≡ head) × (r.act ≡ act)) }
        // The request is in range (`IsRequest`).
        ensures valid { IfSome result (λ r. IsRequest r) }
    {
        if !act.is_in_range() {
            return None;
        }
        // Proof only: these do nothing.
        head_fits(&head);
        act_fits(&act);
        Some(Request { head, act })
    }

    /// Who asks.
    pub fn head(&self) -> &Head
        // This part of the request.
        ensures value { result.now ≡ self.now.head }
        // The request is in range (`IsRequest`).
        ensures valid { IsRequest self.now }
    {
        &self.head
    }

    /// What is asked.
    pub fn act(&self) -> &Act
        // This part of the request.
        ensures value { result.now ≡ self.now.act }
        // The request is in range (`IsRequest`).
        ensures valid { IsRequest self.now }
    {
        &self.act
    }

    /// What the rows of a table look at in it. Nothing is copied.
    #[inline]
    pub fn asking(&self) -> Asking<'_>
        // What rows look at in the request (`asked_in`).
        ensures value { asked_by result ≡ asked_in self.now }
    {
        Asking {
            principal: self.head.principal,
            role: self.head.role,
            op: self.act.op(),
            partitions: self.act.partitions(),
            lsn: self.act.lsn(),
        }
    }

    /// Who asks, and what.
    pub fn into_parts(self) -> (Head, Act)
        // The head.
        ensures head { result.0 ≡ self.head }
        // The act.
        ensures act { result.1 ≡ self.act }
        // They were those of a request in range (`IsRequest`).
        ensures valid { IsRequest self }
    {
        let Request { head, act } = self;
        (head, act)
    }
}
