//! The scripts, each read whole.

ghost use Rattle.std.specs.Prelude.{◌≡◌, ◌⊎◌, ◌++◌, ◌∷◌, ◌<◌, ◌≤◌, ℕ, List, [], true, false, length, vec_len, IfOk, IfErr, OnOk};
ghost use Rattle.std.specs.Io.KnownBytes.{Consumes, IsAtEnd};
ghost use Rattle.script_files.specs.Sources.{IsFit, IsRead, IsReadAs, AreRead, IsUnfit, IsUnreadable, IsWhole};
ghost use Rattle.script_files.specs.Scripts.{IsReadingFault};
ghost use Rattle.script_files.specs.Reading.{IsFileFault, IsMeasured, no_memory};

use reply_text::RunFault;
use std::alloc::{AllocError, Global};
use std::marker::Model;
use std::mem::replace;
use watched::{Input, Source};

/// The most bytes of a line, its end not counted.
const MOST_BYTES: u64 = 65_536;

/// The most lines of a script.
const MOST_LINES: u64 = 1_000_000;

/// How many bytes are asked for at a time.
const AT_A_TIME: usize = 16_384;

/// The script of an engineer: what its file is called, and a reader of it, if it could be opened.
#[derive(Drop)]
pub struct ScriptFile<F: Source> {
    pub name: String,
    pub reader: Option<Input<F>>,
}

impl<F: Source> Model for ScriptFile<F> {
    ghost use Rattle.std.specs.Prelude.{string_bytes};
    ghost use Rattle.script_files.specs.Sources.{FileBook};

    ghost Value = { FileBook };

    ghost view = { λ f. record { name = string_bytes f.name; reader = f.reader } };
}

/// A script that was read whole, as its bytes.
#[derive(Drop)]
pub struct Script {
    bytes: Vec<u8>,
}

impl Model for Script {
    ghost use Rattle.std.specs.Prelude.{ℕ, List};

    ghost Value = { List ℕ };

    ghost view = { λ s. s.bytes.items };
}

impl Script {
    /// Its bytes.
    pub fn as_bytes(&self) -> &[u8]
        ensures { result.now ≡ self.now }
    {
        self.bytes.as_slice()
    }
}

/// Why a script was not read whole.
#[derive(Clone, Copy, Debug, PartialEq, Eq)]
enum Unread {
    /// The reader failed, or it is past a limit.
    Fault,
    /// There was no memory.
    Memory,
}

impl From<AllocError> for Unread {
    ghost from_gives = { λ _ unread. unread ≡ no_memory };

    fn from(_error: AllocError) -> Unread {
        Unread::Memory
    }
}

/// What was read of a script, as the limits see it.
#[derive(Clone, Copy, Debug, PartialEq, Eq)]
struct Measure {
    /// How many lines have ended.
    lines: u64,
    /// How many bytes came after them.
    length: u64,
    /// Whether the last of these is a carriage return.
    is_returned: bool,
}

impl Measure {
    /// Nothing was read.
    fn new() -> Self
        ensures { IsMeasured [] result }
    {
        Measure {
            lines: 0,
            length: 0,
            is_returned: false,
        }
    }

    /// A byte more. False where no script begins so.
    fn take(&mut self, byte: u8) -> bool
        ensures taken { result ≡ true → (read : List ℕ) →
            IsMeasured read self.old → IsMeasured (read ++ byte ∷ []) self.new }
        ensures unfit { result ≡ false → (read left : List ℕ) →
            IsMeasured read self.old → IsFit (read ++ byte ∷ left) → ⊥ }
    {
        if self.lines >= MOST_LINES {
            return false;
        }
        if byte == b'\n' {
            return self.end_line();
        }
        if self.length > MOST_BYTES {
            return false;
        }
        self.length += 1;
        self.is_returned = byte == b'\r';
        true
    }

    /// A line feed more, where a line more is allowed. False where the line is too long.
    fn end_line(&mut self) -> bool
        requires { self.old.lines < 1000000 }
        ensures taken { result ≡ true → (read : List ℕ) →
            IsMeasured read self.old → IsMeasured (read ++ 10 ∷ []) self.new }
        ensures unfit { result ≡ false → (read left : List ℕ) →
            IsMeasured read self.old → IsFit (read ++ 10 ∷ left) → ⊥ }
    {
        if self.length > MOST_BYTES && !self.is_returned {
            return false;
        }
        self.lines += 1;
        self.length = 0;
        self.is_returned = false;
        true
    }

    /// Some bytes more. False where no script begins so.
    fn take_all(&mut self, bytes: &[u8]) -> bool
        ensures taken { result ≡ true → (read : List ℕ) →
            IsMeasured read self.old → IsMeasured (read ++ bytes.now) self.new }
        ensures unfit { result ≡ false → (read left : List ℕ) →
            IsMeasured read self.old → IsFit (read ++ (bytes.now ++ left)) → ⊥ }
    {
        for byte in bytes {
            if !self.take(*byte) {
                return false;
            }
        }
        true
    }

    /// Whether a script may end here. A carriage return with no line feed after it belongs to its line.
    fn may_end(&self) -> bool
        ensures fit { result ≡ true → (read : List ℕ) → IsMeasured read self.now → IsFit read }
        ensures unfit { result ≡ false → (read : List ℕ) → IsMeasured read self.now → IsFit read → ⊥ }
    {
        self.length <= MOST_BYTES
    }
}

/// Reads some bytes more, into the buffer, to the end of the script. False at the end of the input.
fn read_on<F: Source>(
    reader: &mut Input<F>,
    buffer: &mut [u8],
    script: &mut Vec<u8>,
    measure: &mut Measure,
) -> Result<bool, Unread>
    requires { 0 < length buffer.old }
    ensures more { IfOk result (λ more. (bytes : List ℕ) × Consumes reader.old.remaining reader.new.remaining bytes
        × (script.new.items ≡ script.old.items ++ bytes) × (more ≡ false → IsAtEnd reader.new.remaining)) }
    ensures measured { OnOk result (IsMeasured script.old.items measure.old → IsMeasured script.new.items measure.new) }
    ensures fault { IfErr result (λ unread. unread ≡ Unread.Fault → IsMeasured script.old.items measure.old →
        (reader.new.failed ≡ true) ⊎ IsUnfit script.old.items reader.old.remaining) }
{
    let Ok(count) = reader.read(buffer) else {
        return Err(Unread::Fault);
    };
    let bytes = &buffer[..count];
    if !measure.take_all(bytes) {
        return Err(Unread::Fault);
    }
    script.extend_from_slice(bytes)?;
    Ok(count > 0)
}

/// All bytes that the reader has, where they are a script. They are read through the buffer.
fn read_through<F: Source>(
    alloc: Global,
    reader: &mut Input<F>,
    buffer: &mut [u8],
) -> Result<Script, Unread>
    requires { 0 < length buffer.old }
    ensures whole { IfOk result (λ script. IsWhole reader.old.remaining script) }
    ensures fit { IfOk result (λ script. IsFit script) }
    ensures fault { IfErr result (λ unread. unread ≡ Unread.Fault →
        (reader.new.failed ≡ true) ⊎ IsUnfit [] reader.old.remaining) }
{
    let mut script = Vec::new(alloc);
    let mut measure = Measure::new();
    for _ in 0..u64::MAX {
        if !read_on(reader, buffer, &mut script, &mut measure)? {
            return if measure.may_end() {
                Ok(Script { bytes: script })
            } else {
                Err(Unread::Fault)
            };
        }
    }
    // No memory has room for so many bytes.
    Err(Unread::Memory)
}

/// All bytes that the reader has, where they are a script.
fn read_whole<F: Source>(alloc: Global, reader: &mut Input<F>) -> Result<Script, Unread>
    ensures whole { IfOk result (λ script. IsWhole reader.old.remaining script) }
    ensures fit { IfOk result (λ script. IsFit script) }
    ensures fault { IfErr result (λ unread. unread ≡ Unread.Fault →
        (reader.new.failed ≡ true) ⊎ IsUnfit [] reader.old.remaining) }
{
    let mut buffer = vec![in alloc; 0u8; AT_A_TIME]?;
    read_through(alloc, reader, buffer.as_mut_slice())
}

/// The script that the reader has, if there is one.
fn read_if_opened<F: Source>(alloc: Global, reader: &mut Option<Input<F>>) -> Result<Script, Unread>
    ensures script { IfOk result (IsReadAs reader.old) }
    ensures fault { IfErr result (λ unread. unread ≡ Unread.Fault → IsUnreadable reader.old reader.new) }
{
    match reader {
        Some(input) => read_whole(alloc, input),
        None => Err(Unread::Fault),
    }
}

/// The script of the file: all its bytes. A file that could not be read gives its name to the fault.
fn read_script<F: Source>(alloc: Global, file: &mut ScriptFile<F>) -> Result<Script, RunFault>
    ensures script { IfOk result (IsRead file.old) }
    ensures fault { IfErr result (IsFileFault file.old file.new) }
{
    match read_if_opened(alloc, &mut file.reader) {
        Ok(script) => Ok(script),
        Err(Unread::Fault) => {
            let name = replace(&mut file.name, String::new(alloc));
            Err(RunFault::FileUnread(name))
        }
        Err(Unread::Memory) => Err(RunFault::NoMemory),
    }
}

/// The scripts of the files, in their order. The fault is that of the first that was not read.
pub fn read_scripts<F: Source>(
    alloc: Global,
    files: &mut [ScriptFile<F>],
) -> Result<Vec<Script>, RunFault>
    ensures scripts { IfOk result (λ scripts. AreRead files.old scripts.items) }
    ensures count { IfOk result (λ scripts. vec_len scripts ≡ length files.old) }
    ensures fault { IfErr result (IsReadingFault files.old files.new) }
{
    let mut scripts = Vec::new(alloc);
    for place in 0..files.len() {
        let script = read_script(alloc, &mut files[place])?;
        scripts.push(script).map_err(AllocError::from)?;
    }
    Ok(scripts)
}
