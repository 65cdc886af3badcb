//! Letters that are to be sent.

/// A letter that is to be sent.
#[derive(Debug, Drop, PartialEq, Eq)]
pub struct Outgoing {
    /// The number of the sender.
    pub from: u16,
    /// What it says.
    pub text: String,
}

/// What a text of mail says.
#[derive(Debug, Drop, PartialEq, Eq)]
pub struct Mail {
    /// How many senders there are; they are numbered from 1.
    pub senders: u16,
    /// The letters, in the order of the lines.
    pub letters: Vec<Outgoing>,
}
