//! Calls: requests and replies, with their messages.

ghost use Rattle.std.specs.Prelude.{◌≡◌};
ghost use Rattle.mrpc_table.specs.Calls.{call_kind_of, is_of_call_kind};

use crate::tree::Tree;

/// Which of the two messages of a method a call carries.
#[derive(Clone, Copy, PartialEq, Eq)]
pub enum CallKind {
    /// The arguments: a message of the method's input type.
    Request,
    /// The result: a message of the method's output type.
    Reply,
}

impl CallKind {
    /// The kind of a call by its number: a request has the number 0, and a reply has that of the request it answers.
    pub fn of_number(number: u32) -> CallKind
        ensures { result ≡ call_kind_of number }
    {
        if number == 0 {
            CallKind::Request
        } else {
            CallKind::Reply
        }
    }
}

/// A request or a reply, with a private copy of its message.
#[derive(Drop)]
pub struct Call {
    /// The connection, from 1.
    pub conn: u32,
    /// The number of the call on its connection, from 1.
    pub seq: u32,
    /// The index of its method in the table.
    pub method: u16,
    /// 0 for a request; for a reply, the number of the answered request.
    pub number: u32,
    /// The arguments of a request, or the result.
    pub tree: Tree,
}

impl Call {
    /// Whether the call is of a kind.
    pub fn is_of(&self, sort: CallKind) -> bool
        ensures { result ≡ is_of_call_kind sort self.now.number }
    {
        CallKind::of_number(self.number) == sort
    }
}
