// What a session is asked and what it answers, as data.
use crate::fault::SessionFault;

#[derive(Clone, Copy, PartialEq, Eq, Debug)]
pub enum Ask<S> {
    Read(S),
    Weigh,
    Restart,
}

// What a session answers that does not refuse.
#[derive(Clone, Copy, PartialEq, Eq, Debug)]
pub enum Reply<W> {
    // A symbol was taken, with so many leaf tests.
    Took(usize),
    // The weight of the symbols held.
    Weighs(W),
    // The session is new.
    Restarted,
}

// One turn of a succession: what is asked, and the latest reply to it.
#[derive(Clone, Copy, PartialEq, Eq, Debug)]
pub struct Turn<W, S> {
    pub ask: Ask<S>,
    pub reply: Result<Reply<W>, SessionFault>,
}
