//! What a log has come to, and what becomes of its next line.

ghost use Rattle.std.specs.Prelude.{◌≡◌, ◌↔◌, ◌+◌, ◌^◌, ◌<◌, ◌≤◌, ◌++◌, codes, drop, OnOk, IfSome, IfNone, IsTrue};
ghost use Rattle.std.specs.Fmt.{decimal};
ghost use Rattle.decimal.specs.Separators.{Lacks};
ghost use Rattle.reference_machine.specs.Network.{Network};
ghost use Rattle.reference_machine.specs.Machine.{nothing};
ghost use Rattle.log_text.specs.declared.version.Version.{Version};
ghost use Rattle.log_text.specs.Versions.{header};
ghost use Rattle.log_replay.specs.Replaying.{Place, beginning, is_finished};
ghost use Rattle.log_replay.specs.Reading.{IsAt, Becomes, IsChecked};

use crate::answer::answer;
use crate::call::read_call;
use crate::place::{Checked, Checker, Stage};
use decimal::cut_at;
use itoa::Buffer;
use log_text::Version;
use reference_machine::Machine;
use reply_text::replies_are_lines;
use std::alloc::{AllocError, Global};
use std::thread::Threads;

impl Checker {
    /// Before the header.
    pub(crate) fn new(alloc: Global) -> Self
        ensures at { IsAt result nothing beginning }
        ensures entries { result.entries ≡ 0 }
    {
        Checker {
            stage: Stage::Beginning,
            entries: 0,
            due: Vec::new(alloc),
            at: 0,
        }
    }
}

/// Whether the end was taken.
pub(crate) fn has_ended(checker: &Checker) -> bool
    ensures { (s : Network) (p : Place) → IsAt checker.now s p → result ≡ is_finished p }
{
    match checker.stage {
        Stage::Beginning => false,
        Stage::Within(_) => false,
        Stage::Finished => true,
    }
}

/// Takes the next line, and runs the command of a call. Where it is not taken, nothing is run.
pub(crate) fn check_line<M: Machine>(
    rt: &(impl Threads + Sync),
    alloc: Global,
    checker: &mut Checker,
    line: &[u8],
    machine: &mut M,
) -> Result<Checked, AllocError>
    requires { checker.old.entries < 2 ^ 63 }
    ensures checked { (p : Place) → IsAt checker.old (M.network machine.old) p →
        IsChecked p line.now result checker.new (M.network machine.new) }
    ensures count { OnOk result (checker.new.entries ≤ checker.old.entries + 1) }
{
    match checker.stage {
        Stage::Beginning => Ok(check_header(checker, line)),
        Stage::Within(version) => check_within(rt, alloc, version, checker, line, machine),
        Stage::Finished => Ok(Checked::Bad),
    }
}

/// Takes the header.
fn check_header(checker: &mut Checker, line: &[u8]) -> Checked
    requires { checker.old.stage ≡ Stage.Beginning }
    ensures checked { (s : Network) (p : Place) → IsAt checker.old s p → Becomes p line.now result checker.new s }
    ensures count { checker.new.entries ≡ checker.old.entries }
{
    match version_of(line) {
        Some(version) => {
            checker.stage = Stage::Within(version);
            Checked::Taken
        }
        None => Checked::Bad,
    }
}

/// Takes a line that is due of a reply, or, where none is, a call or the end.
fn check_within<M: Machine>(
    rt: &(impl Threads + Sync),
    alloc: Global,
    version: Version,
    checker: &mut Checker,
    line: &[u8],
    machine: &mut M,
) -> Result<Checked, AllocError>
    requires stage { checker.old.stage ≡ Stage.Within version }
    requires few { checker.old.entries < 2 ^ 63 }
    ensures checked { (p : Place) → IsAt checker.old (M.network machine.old) p →
        IsChecked p line.now result checker.new (M.network machine.new) }
    ensures count { OnOk result (checker.new.entries ≤ checker.old.entries + 1) }
{
    let Some((next, rest)) = cut_at(due_text(checker), b'\n') else {
        return check_between(rt, alloc, version, checker, line, machine);
    };
    if !is_same(line, next) {
        return Ok(Checked::Differs);
    }
    let left = rest.len();
    checker.at = checker.due.len() - left;
    Ok(Checked::Taken)
}

/// Takes a call, whose command is run, or the end.
fn check_between<M: Machine>(
    rt: &(impl Threads + Sync),
    alloc: Global,
    version: Version,
    checker: &mut Checker,
    line: &[u8],
    machine: &mut M,
) -> Result<Checked, AllocError>
    requires stage { checker.old.stage ≡ Stage.Within version }
    requires few { checker.old.entries < 2 ^ 63 }
    requires none { Lacks 10 (drop checker.old.at checker.old.due.items) }
    ensures checked { (p : Place) → IsAt checker.old (M.network machine.old) p →
        IsChecked p line.now result checker.new (M.network machine.new) }
    ensures count { OnOk result (checker.new.entries ≤ checker.old.entries + 1) }
{
    if is_end(line, checker.entries) {
        checker.stage = Stage::Finished;
        return Ok(Checked::Taken);
    }
    let event = match read_call(alloc, version, line)? {
        Some(event) => event,
        None => return Ok(Checked::Bad),
    };
    let due = answer(rt, alloc, &event, machine)?;
    *checker = Checker {
        stage: Stage::Within(version),
        entries: checker.entries + 1,
        due,
        at: 0,
    };
    replies_are_lines();
    Ok(Checked::Taken)
}

/// The lines that are due of a reply.
fn due_text(checker: &Checker) -> &[u8]
    ensures { result.now ≡ drop checker.now.at checker.now.due.items }
{
    &checker.due.as_slice()[checker.at..]
}

/// The version whose header the line is.
fn version_of(line: &[u8]) -> Option<Version>
    ensures found { IfSome result (λ v. line.now ≡ header v) }
    ensures none { IfNone result ((v : Version) → line.now ≡ header v → ⊥) }
{
    match line {
        b"bgpsim log 1" => Some(Version::One),
        b"bgpsim log 2" => Some(Version::Two),
        _ => None,
    }
}

/// Whether the two lines are the same.
fn is_same(first: &[u8], second: &[u8]) -> bool
    ensures { IsTrue result ↔ (first.now ≡ second.now) }
{
    first == second
}

/// Whether the line is the end of a log of so many calls.
fn is_end(line: &[u8], entries: u64) -> bool
    ensures { IsTrue result ↔ (line.now ≡ codes "end " ++ decimal entries) }
{
    match line {
        [b'e', b'n', b'd', b' ', count @ ..] => is_count(count, entries),
        _ => false,
    }
}

/// Whether the text is the number.
fn is_count(text: &[u8], number: u64) -> bool
    ensures { IsTrue result ↔ (text.now ≡ decimal number) }
{
    let mut buffer = Buffer::new();
    is_same(text, buffer.format(number).as_bytes())
}
