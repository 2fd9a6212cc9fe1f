//! The lines of a script that was read whole.

ghost use Rattle.std.specs.Prelude.{◌≡◌, ◌+◌, ◌∷◌, ◌<◌, ◌==◌, [], length, position, None, IfSome};
ghost use Rattle.std.specs.Str.Lines.{lines, strip_carriage_return};

use std::marker::Model;

/// A line: its number, from 1 on, and its bytes without its end.
#[derive(Clone, Copy, Debug)]
pub struct Line<'a> {
    pub number: u64,
    pub bytes: &'a [u8],
}

/// The lines that are left of a script.
#[derive(Drop)]
pub struct Lines<'a> {
    /// How many lines came before.
    before: u64,
    rest: &'a [u8],
}

impl<'a> Model for Lines<'a> {
    ghost use Rattle.std.specs.Prelude.{◌+◌, ◌^◌, ◌<◌, length};
    ghost use Rattle.std.specs.Str.Lines.{lines};
    ghost use Rattle.script_files.specs.Scripts.{LinesLeft};

    ghost Value = { LinesLeft };

    ghost view = { λ x. record { before = x.before; left = lines x.rest.now } };

    ghost invariant = { λ x. x.before + length x.rest.now < 2 ^ 64 };
}

impl<'a> Lines<'a> {
    /// All lines of a script.
    pub fn of(script: &'a [u8]) -> Self
        ensures { result ≡ record { before = 0; left = lines script.now } }
    {
        Lines {
            before: 0,
            rest: script,
        }
    }

    /// The next line. Each counts, blank ones too.
    pub fn next(&mut self) -> Option<Line<'a>>
        ensures none { result ≡ None → self.old.left ≡ [] }
        ensures line { IfSome result (λ line. self.old.left ≡ line.bytes.now ∷ self.new.left) }
        ensures number { IfSome result (λ line. line.number ≡ self.old.before + 1) }
        ensures count { IfSome result (λ line. self.new.before ≡ line.number) }
    {
        let (bytes, rest) = next_line(self.rest)?;
        self.rest = rest;
        self.before += 1;
        Some(Line {
            number: self.before,
            bytes,
        })
    }
}

/// A line without the carriage return at its end.
fn without_carriage_return(line: &[u8]) -> &[u8]
    ensures { result.now ≡ strip_carriage_return line.now }
{
    match line {
        [front @ .., b'\r'] => front,
        _ => line,
    }
}

/// The index of the first line feed.
fn line_feed_in(bytes: &[u8]) -> Option<usize>
    ensures { result ≡ position (λ b. b == 10) bytes.now }
{
    bytes.iter().position(|b| *b == b'\n')
}

/// The first line, without its end, and the bytes after it. There is none where there are no bytes.
#[tactic(auto, using(crate::proofs::ScriptLines::rows))]
fn next_line(bytes: &[u8]) -> Option<(&[u8], &[u8])>
    ensures none { result ≡ None → lines bytes.now ≡ [] }
    ensures next { IfSome result (λ next. lines bytes.now ≡ next.0.now ∷ lines next.1.now) }
    ensures shorter { IfSome result (λ next. length next.1.now < length bytes.now) }
{
    if bytes.is_empty() {
        return None;
    }
    match line_feed_in(bytes) {
        Some(end) => Some((without_carriage_return(&bytes[..end]), &bytes[end + 1..])),
        None => Some((bytes, &bytes[bytes.len()..])),
    }
}
