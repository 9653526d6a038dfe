//! Why a message is not put on a border.

/// Why a message was not put on a border: the first of these that applies.
#[derive(Clone, Copy, Debug, PartialEq, Eq, Drop)]
pub enum PutFault {
    /// The border was closed.
    Closed,
    /// The message's side is not the seat's, or its round is not both the number of the seat's puts
    /// and the number of messages on that side.
    Misplaced,
    /// The list of that side was refused memory to grow. The same put can be tried again.
    OutOfMemory,
}
