//! Inputs of which each byte above 127 is read as `?`.

ghost use Rattle.std.specs.Prelude.{◌≡◌, map};
ghost use Rattle.ascii_filter.specs.Options.{replaced};

use std::io;

/// A reader of which each byte above 127 is read as `?`.
#[derive(Drop)]
pub struct Replaced<R: io::Read> {
    /// The reader that gives the bytes.
    pub reader: R,
}

impl<R: io::Read> io::Read for Replaced<R> {
    ghost use Rattle.std.specs.Prelude.{map, option_map};
    ghost use Rattle.ascii_filter.specs.Options.{replaced};

    ghost remaining = { λ input. option_map (map replaced) (R.remaining input.reader) };

    fn read(&mut self, buf: &mut [u8]) -> io::Result<usize> {
        let n = self.reader.read(buf)?;
        replace_others(&mut buf[..n]);
        Ok(n)
    }
}

/// Writes `?` in place of each byte above 127.
fn replace_others(bytes: &mut [u8])
    ensures { bytes.new ≡ map replaced bytes.old }
{
    for byte in bytes.iter_mut() {
        *byte = ascii_for(*byte);
    }
}

/// Returns the byte, or `?` if it is above 127.
#[tactic(auto, unfolding(crate::specs::Options::replaced))]
fn ascii_for(byte: u8) -> u8
    ensures { result ≡ replaced byte }
{
    if byte < 128 { byte } else { b'?' }
}
