//! The words of the command line.

ghost use Rattle.std.specs.Prelude.{map, string_bytes};
ghost use Rattle.machine_scripts.specs.CommandLine.{Names, IsChoice};

/// Which machine.
#[derive(Clone, Copy, Debug, PartialEq, Eq)]
pub(crate) enum Kind {
    /// The plain simulator.
    Plain,
    /// The engine with sorted tables, whose cells choose when they are asked.
    Sorted,
    /// The engine with tries, whose cells keep groups.
    Trie,
    /// No machine of its own: a room, whose calls are lines.
    Room,
}

/// The machine that the words ask for. The first word is the program's name; a last word `script` says nothing more.
pub(crate) fn choose(words: &[String]) -> Option<Kind>
    ensures { IsChoice (map string_bytes words.now) result }
{
    match words {
        [_, kind] => kind_named(kind.as_bytes()),
        [_, kind, last] if last.as_str() == "script" => kind_named(kind.as_bytes()),
        _ => None,
    }
}

/// The machine of the name.
fn kind_named(word: &[u8]) -> Option<Kind>
    ensures { Names word.now result }
{
    match word {
        b"plain" => Some(Kind::Plain),
        b"sorted" => Some(Kind::Sorted),
        b"trie" => Some(Kind::Trie),
        b"room" => Some(Kind::Room),
        _ => None,
    }
}
