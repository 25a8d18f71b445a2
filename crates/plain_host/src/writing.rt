//! Writes a text to its end, or up to the first fault.
ghost use Rattle.std.specs.Prelude.{◌<◌, length, OnErr, OnOk, IsErr};
ghost use Rattle.std.specs.Io.KnownBytes.{Appends};
ghost use Rattle.plain_host.specs.Writing.{AppendsPart, TellsFaults, Told};

use outside::{Sink, WriteFault};

/// Writes the whole text, or a part of it and then a fault. Each write offers all that is left.
pub fn write_text<O: Sink>(text: &[u8], output: &mut O) -> Result<(), WriteFault>
    ensures whole { OnOk result (Appends (O.taken output.old) (O.taken output.new) text.now) }
    ensures part { AppendsPart (O.taken output.old) (O.taken output.new) text.now }
    ensures cause { TellsFaults (O.faults output.old) (O.faults output.new) (IsErr result) }
    ensures some { OnErr result (0 < length text.now) }
{
    let mut at = 0;
    while at < text.len() {
        at += output.write(&text[at..])?;
    }
    Ok(())
}

/// Writes a line on the errors, where a fault ends it and changes nothing else.
pub fn tell<E: Sink>(line: &[u8], errors: &mut E)
    ensures { Told (E.faults errors.old) (E.faults errors.new)
        (E.taken errors.old) (E.taken errors.new) line.now }
{
    let _ = write_text(line, errors);
}
