//! What holds of every run. A function here does nothing: a call gives the caller's proof what it ensures.

ghost use Rattle.convergence.specs.Waiting.{WaitingLaw};

/// A message that waits is taken where it is delivered: it waits over a session that is up. So a delivery of it is
/// refused for want of memory alone.
pub fn waiting_is_taken()
    ensures { WaitingLaw }
{}
