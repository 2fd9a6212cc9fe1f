//! What holds of the text of replies. A function here does nothing: a call gives the caller's proof what it ensures.

ghost use Rattle.reply_text.specs.Lines.{RepliesAreLines};

/// A reply's text is its lines, one after the other, and each line has one line feed, at its end.
pub fn replies_are_lines()
    ensures { RepliesAreLines }
{}
