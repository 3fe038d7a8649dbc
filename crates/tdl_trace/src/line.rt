ghost use Rattle.std.specs.Prelude.{◌≡◌, ◌++◌, ◌<◌, codes, length, slice_get, OnOk, OnErr, IfSome};
ghost use Rattle.std.specs.Fmt.{decimal, signed_decimal};
ghost use Rattle.tdl_trace.specs.Extended.{Extends};
ghost use Rattle.tdl_trace.specs.Lines.{head_of, line_at, line_of, module_name, value_end};
ghost use Rattle.tdl_trace.specs.Shown.{Shown, shown_of};

use crate::{Names, Row, Rows};
use itoa::Buffer;
use tdl_base::{ModeId, ModuleId, NoMemory, NodeId, PortKey, Us};

fn put_text(into: &mut Vec<u8>, text: &[u8]) -> Result<(), NoMemory>
    ensures ok { OnOk result (into.new.items ≡ into.old.items ++ text.now) }
    ensures kept { Extends into.old.items into.new.items }
{
    into.extend_from_slice(text)?;
    Ok(())
}

fn put_number(into: &mut Vec<u8>, number: u64) -> Result<(), NoMemory>
    ensures ok { OnOk result (into.new.items ≡ into.old.items ++ decimal number) }
    ensures kept { Extends into.old.items into.new.items }
{
    let mut buffer = Buffer::new();
    into.extend_from_slice(buffer.format(number).as_bytes())?;
    Ok(())
}

fn put_signed(into: &mut Vec<u8>, number: i64) -> Result<(), NoMemory>
    ensures ok { OnOk result (into.new.items ≡ into.old.items ++ signed_decimal number) }
    ensures kept { Extends into.old.items into.new.items }
{
    let mut buffer = Buffer::new();
    into.extend_from_slice(buffer.format(number).as_bytes())?;
    Ok(())
}

// The name with a dot before it.
#[tactic(auto, using(crate::proofs::Extending::and_more))]
fn put_dotted(into: &mut Vec<u8>, name: &str) -> Result<(), NoMemory>
    ensures ok { OnOk result (into.new.items ≡ into.old.items ++ codes "." ++ name.now) }
    ensures kept { Extends into.old.items into.new.items }
{
    put_text(into, b".")?;
    put_text(into, name.as_bytes())?;
    Ok(())
}

#[tactic(auto, using(crate::proofs::Extending::and_more))]
fn put_head(
    into: &mut Vec<u8>,
    names: &Names,
    at: Us,
    node: NodeId,
    word: &[u8],
) -> Result<(), NoMemory>
    ensures ok { OnOk result
        (into.new.items ≡ into.old.items ++ head_of names.now at.0 node.0 word.now) }
    ensures kept { Extends into.old.items into.new.items }
{
    put_number(into, at.0)?;
    put_text(into, b" ")?;
    put_text(into, names.node_name(node).as_bytes())?;
    put_text(into, word)?;
    Ok(())
}

// The head and the name of the module, with which each line begins.
#[tactic(auto, using(crate::proofs::Extending::and_more))]
fn put_start(
    into: &mut Vec<u8>,
    names: &Names,
    at: Us,
    node: NodeId,
    word: &[u8],
    module: ModuleId,
) -> Result<(), NoMemory>
    ensures ok { OnOk result (into.new.items ≡ into.old.items
        ++ head_of names.now at.0 node.0 word.now ++ module_name names.now «module».0) }
    ensures kept { Extends into.old.items into.new.items }
{
    put_head(into, names, at, node, word)?;
    put_text(into, names.module_name(module).as_bytes())?;
    Ok(())
}

#[tactic(auto, using(crate::proofs::Extending::and_more))]
fn put_value_end(into: &mut Vec<u8>, value: i64) -> Result<(), NoMemory>
    ensures ok { OnOk result (into.new.items ≡ into.old.items ++ value_end value) }
    ensures kept { Extends into.old.items into.new.items }
{
    put_text(into, b" ")?;
    put_signed(into, value)?;
    put_text(into, b"\n")?;
    Ok(())
}

#[tactic(auto, using(crate::proofs::Extending::and_more))]
fn put_port(
    into: &mut Vec<u8>,
    names: &Names,
    at: Us,
    node: NodeId,
    port: PortKey,
    value: i64,
) -> Result<(), NoMemory>
    ensures ok { OnOk result (into.new.items ≡ into.old.items ++ line_of names.now
        (Shown.Port at.0 node.0 port.«module».0 port.task.0 port.output value)) }
    ensures kept { Extends into.old.items into.new.items }
{
    let PortKey {
        module,
        task,
        output,
    } = port;
    put_start(into, names, at, node, b" port ", module)?;
    put_dotted(into, names.task_name(module, task))?;
    put_dotted(into, names.output_name(module, task, output))?;
    put_value_end(into, value)?;
    Ok(())
}

#[tactic(auto, using(crate::proofs::Extending::and_more))]
fn put_act(
    into: &mut Vec<u8>,
    names: &Names,
    at: Us,
    node: NodeId,
    module: ModuleId,
    actuator: u16,
    value: i64,
) -> Result<(), NoMemory>
    ensures ok { OnOk result (into.new.items ≡ into.old.items ++ line_of names.now
        (Shown.Act at.0 node.0 «module».0 actuator value)) }
    ensures kept { Extends into.old.items into.new.items }
{
    put_start(into, names, at, node, b" act ", module)?;
    put_dotted(into, names.actuator_name(module, actuator))?;
    put_value_end(into, value)?;
    Ok(())
}

#[tactic(auto, using(crate::proofs::Extending::and_more))]
fn put_mode(
    into: &mut Vec<u8>,
    names: &Names,
    at: Us,
    node: NodeId,
    module: ModuleId,
    mode: ModeId,
) -> Result<(), NoMemory>
    ensures ok { OnOk result (into.new.items ≡ into.old.items ++ line_of names.now
        (Shown.Mode at.0 node.0 «module».0 mode.0)) }
    ensures kept { Extends into.old.items into.new.items }
{
    put_start(into, names, at, node, b" mode ", module)?;
    put_text(into, b" ")?;
    put_text(into, names.mode_name(module, mode).as_bytes())?;
    put_text(into, b"\n")?;
    Ok(())
}

// Without memory a first part of the line may have been put.
fn put_parts(into: &mut Vec<u8>, names: &Names, row: &Row) -> Result<(), NoMemory>
    ensures ok { OnOk result
        (into.new.items ≡ into.old.items ++ line_of names.now (shown_of row.now)) }
    ensures kept { Extends into.old.items into.new.items }
{
    match *row {
        Row::Port {
            at,
            node,
            module,
            task,
            output,
            value,
        } => {
            let port = PortKey {
                module,
                task,
                output,
            };
            put_port(into, names, at, node, port, value)
        }
        Row::Act {
            at,
            node,
            module,
            actuator,
            value,
        } => put_act(into, names, at, node, module, actuator, value),
        Row::Mode {
            at,
            node,
            module,
            mode,
        } => put_mode(into, names, at, node, module, mode),
    }
}

// Without memory nothing is put.
fn put_row(into: &mut Vec<u8>, names: &Names, row: &Row) -> Result<(), NoMemory>
    ensures ok { OnOk result
        (into.new.items ≡ into.old.items ++ line_of names.now (shown_of row.now)) }
    ensures err { OnErr result (into.new.items ≡ into.old.items) }
{
    let start = into.len();
    if let Err(fault) = put_parts(into, names, row) {
        into.truncate(start);
        return Err(fault);
    }
    Ok(())
}

/// Appends the line of row `i`, with its line end. A number that has no name prints nothing in the
/// name's place. Without memory `into` is as before.
pub fn print_row(rows: &Rows, i: usize, names: &Names, into: &mut Vec<u8>) -> Result<(), NoMemory>
    requires { i < length rows.now }
    ensures ok { OnOk result (into.new.items ≡ into.old.items ++ line_at names.now rows.now i) }
    ensures err { OnErr result (into.new.items ≡ into.old.items) }
{
    match rows.get(i) {
        None => unreachable!(),
        Some(row) => put_row(into, names, row),
    }
}
