//! Why a log drops a message.

ghost use Rattle.std.specs.Prelude.{◌≡◌};
ghost use Rattle.ordering.specs.Faults.{refusal_number};

use thiserror::Error;

/// Why a log drops a message. If several reasons hold, the order is: unknown sender, wrong view, out of the marks, and
/// last duplicate or conflict.
#[derive(Clone, Copy, Debug, PartialEq, Eq, Error)]
pub enum Dropped {
    /// It is of another view than the replica's, or the replica isn't active in its view.
    #[error("the view is not the present one")]
    WrongView,
    /// Its number is not within the marks.
    #[error("the number is outside the marks")]
    OutOfMarks,
    /// The same sender sent another digest for the number before.
    #[error("another digest came before")]
    Conflict,
    /// The sender is no replica that sends such messages.
    #[error("the sender is unknown")]
    UnknownSender,
    /// The same sender sent the same digest for the number before.
    #[error("the same came before")]
    Duplicate,
}

impl Dropped {
    /// The number of the refusal, from 10 to 14.
    pub fn number(self) -> u8
        ensures { result ≡ refusal_number self }
    {
        match self {
            Dropped::WrongView => 10,
            Dropped::OutOfMarks => 11,
            Dropped::Conflict => 12,
            Dropped::UnknownSender => 13,
            Dropped::Duplicate => 14,
        }
    }
}
