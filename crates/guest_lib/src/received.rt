//! What the library comes to.

use argo_base::Message;

/// What the library found in a ring of the guest's own.
#[derive(Debug, Drop)]
pub enum Received {
    /// It took this message, whole. The rx word stands behind it.
    Msg(Message),
    /// The two words of the ring are equal.
    Empty,
    /// A word is no place of the ring, or the header's length does not fit.
    Bad,
    /// A page is not there.
    Fault,
    /// The domain of the caller is gone, or is of another generation than the caller's section names.
    Gone,
}
