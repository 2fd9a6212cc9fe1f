//! Numbers, addresses and prefixes as text.

ghost use Rattle.watched.specs.Streams.{Writes};

use crate::backward::{ADDR_BYTES, PREFIX_BYTES, put_addr, put_prefix};
use crate::text::Text;
use itoa::{Buffer, Integer};
use net_prefix::{Addr, Prefix};
use path_attr::Asn;
use watched::{Output, Sink, WriterFailed};

/// Writes the number in decimal.
pub(crate) fn write_number<N: Integer, W: Sink>(
    number: N,
    output: &mut Output<W>,
) -> Result<(), WriterFailed>
    ensures { Writes output.old (N.text number) result output.new }
{
    let mut buffer = Buffer::new();
    output.write(buffer.format(number).as_bytes())
}

impl Text for u8 {
    ghost use Rattle.std.specs.Fmt.{decimal};

    ghost text = { decimal };

    fn write<W: Sink>(&self, output: &mut Output<W>) -> Result<(), WriterFailed> {
        write_number(*self, output)
    }
}

impl Text for u32 {
    ghost use Rattle.std.specs.Fmt.{decimal};

    ghost text = { decimal };

    fn write<W: Sink>(&self, output: &mut Output<W>) -> Result<(), WriterFailed> {
        write_number(*self, output)
    }
}

impl Text for Asn {
    ghost use Rattle.std.specs.Fmt.{decimal};

    ghost text = { decimal };

    fn write<W: Sink>(&self, output: &mut Output<W>) -> Result<(), WriterFailed> {
        write_number(self.number(), output)
    }
}

impl Text for Addr {
    ghost use Rattle.net_prefix.specs.Address.{addr_text};

    ghost text = { addr_text };

    fn write<W: Sink>(&self, output: &mut Output<W>) -> Result<(), WriterFailed> {
        let mut buffer = [0; ADDR_BYTES];
        let start = put_addr(*self, &mut buffer, ADDR_BYTES);
        output.write(&buffer[start..])
    }
}

impl Text for Prefix {
    ghost use Rattle.net_prefix.specs.Prefix.{prefix_text};

    ghost text = { prefix_text };

    fn write<W: Sink>(&self, output: &mut Output<W>) -> Result<(), WriterFailed> {
        let mut buffer = [0; PREFIX_BYTES];
        let start = put_prefix(*self, &mut buffer, PREFIX_BYTES);
        output.write(&buffer[start..])
    }
}
