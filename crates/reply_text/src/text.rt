//! Values that have a text, and lists of them.

ghost use Rattle.std.specs.Prelude.{◌++◌, ◌∷◌, map};
ghost use Rattle.std.specs.List.{flat_map, join_with_byte};
ghost use Rattle.watched.specs.Streams.{Writes};

use watched::{Output, Sink, WriterFailed};

/// A value that has a text.
pub trait Text {
    ghost use Rattle.std.specs.Prelude.{ℕ, List};

    ghost text: { Self → List ℕ };

    /// Writes the text.
    fn write<W: Sink>(&self, output: &mut Output<W>) -> Result<(), WriterFailed>
        ensures { Writes output.old (text self.now) result output.new };
}

/// Writes the items, one after the other.
pub fn write_each<T: Text, W: Sink>(items: &[T], output: &mut Output<W>) -> Result<(), WriterFailed>
    ensures { Writes output.old (flat_map T.text items.now) result output.new }
{
    for item in items {
        item.write(output)?;
    }
    Ok(())
}

/// Writes the separator and the item.
fn write_after<T: Text, W: Sink>(
    separator: u8,
    item: &T,
    output: &mut Output<W>,
) -> Result<(), WriterFailed>
    ensures { Writes output.old (separator ∷ T.text item.now) result output.new }
{
    output.write(&[separator])?;
    item.write(output)
}

/// Writes the items, the separator before each.
fn write_each_after<T: Text, W: Sink>(
    separator: u8,
    items: &[T],
    output: &mut Output<W>,
) -> Result<(), WriterFailed>
    ensures { Writes output.old (flat_map (λ item. separator ∷ T.text item) items.now) result output.new }
{
    for item in items {
        write_after(separator, item, output)?;
    }
    Ok(())
}

/// Writes the items, the separator between each and the next.
pub fn write_joined<T: Text, W: Sink>(
    separator: u8,
    items: &[T],
    output: &mut Output<W>,
) -> Result<(), WriterFailed>
    ensures { Writes output.old (join_with_byte separator (map T.text items.now)) result output.new }
{
    let [first, rest @ ..] = items else {
        return Ok(());
    };
    first.write(output)?;
    write_each_after(separator, rest, output)
}
