// What a turn is given and what it comes to (CR 5).

#![tactic(auto)]

use model::Reply;

// The kind of a call on a process's list.
pub use llsc::CallKind;

// The next call on a list: its kind, and the record that its start names. An SC's words are lent beside it.
#[derive(Clone, Copy)]
pub struct NextCall {
    pub kind: CallKind,
    pub named: usize,
}

// The reply of the command that the turn gave, or a pass.
// Kept: no `Option<Reply>`: 02, CR 5 answers "the command's reply, or pass", and users match on these two names.
#[derive(Clone, Copy)]
pub enum TurnReply {
    Replied(Reply),
    Passed,
}

// What a turn came to, and how many calls are left on the list.
#[derive(Clone, Copy)]
pub struct Turned {
    pub reply: TurnReply,
    pub left: usize,
}
