ghost use Rattle.std.specs.Prelude.{◌≡◌, ◌<◌, ◌≤◌, length, OnOk, OnErr, IsErrOf};
ghost use Rattle.tdl_io.specs.Outside.{Appends, AppendsPart, Rose};
ghost use Rattle.tdl_trace.specs.Lines.{line_at, text_of};

use crate::{Names, PrintFault, Rows, print_row};
use std::alloc::Global;
use tdl_io::Sink;

// Puts the line of row `i` in one piece.
fn put_line<O: Sink>(
    alloc: Global,
    rows: &Rows,
    i: usize,
    names: &Names,
    out: &mut O,
) -> Result<(), PrintFault>
    requires { i < length rows.now }
    ensures ok { OnOk result
        (Appends (O.told out.old).contents (O.told out.new).contents
        (line_at names.now rows.now i)) }
    ensures err { OnErr result
        (AppendsPart (O.told out.old).contents (O.told out.new).contents
        (line_at names.now rows.now i)) }
    ensures later { (O.told out.old).faults ≤ (O.told out.new).faults }
    ensures cause { IsErrOf result PrintFault.WriteFailed →
        Rose (O.told out.old).faults (O.told out.new).faults }
{
    let mut line = Vec::new(alloc);
    print_row(rows, i, names, &mut line)?;
    out.put(&line)?;
    Ok(())
}

/// Puts the lines of the rows, each in one piece. After a fault the sink holds a first part of
/// them.
pub fn print_rows<O: Sink>(
    alloc: Global,
    rows: &Rows,
    names: &Names,
    out: &mut O,
) -> Result<(), PrintFault>
    ensures ok { OnOk result
        (Appends (O.told out.old).contents (O.told out.new).contents (text_of names.now rows.now)) }
    ensures err { OnErr result
        (AppendsPart (O.told out.old).contents (O.told out.new).contents
        (text_of names.now rows.now)) }
    ensures later { (O.told out.old).faults ≤ (O.told out.new).faults }
    ensures cause { IsErrOf result PrintFault.WriteFailed →
        Rose (O.told out.old).faults (O.told out.new).faults }
{
    for i in 0..rows.len() {
        put_line(alloc, rows, i, names, out)?;
    }
    Ok(())
}
