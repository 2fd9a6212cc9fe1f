//! What holds of the command language, whoever reads it. A function here does nothing: a call gives the caller's proof
//! what it ensures.

ghost use Rattle.command_text.specs.Spelling.{WordsTell, OneMeaning};

/// No two events are spelled by the same words, so a line means one event or none.
pub fn one_meaning()
    ensures words { WordsTell }
    ensures line { OneMeaning }
{}
