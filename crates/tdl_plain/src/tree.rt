//! The form that a tree of the plain shape says.
ghost use Rattle.std.specs.Prelude.{◌≡◌};
ghost use Rattle.tdl_plain.specs.PlainTree as plain;
ghost use Rattle.tdl_tree.specs.declared.statements.StmtTree.TheViews.{out-StmtTree};

use crate::Form;
use tdl_base::{BinOp, Kind};
use tdl_tree::{
    Act, ActKind, Decl, ExprNode, ExprTree, Id, Lit, LitValue, PortDecl, Sort, StmtTree, Tree, Unit,
};

fn is_text(text: &str, name: &Id) -> bool
    ensures { result ≡ plain.is_text text.now name.now }
{
    name.text.as_str() == text
}

fn is_int(kind: Kind) -> bool
    ensures { result ≡ plain.is_int kind }
{
    matches!(kind, Kind::Int)
}

fn is_name(text: &str, e: &ExprTree) -> bool
    ensures { result ≡ plain.is_name text.now e.now }
{
    match &e.node {
        ExprNode::Name { parts } => match parts.as_slice() {
            [part] => is_text(text, part),
            _ => false,
        },
        _ => false,
    }
}

fn is_add(op: BinOp) -> bool
    ensures { result ≡ plain.is_add op }
{
    matches!(op, BinOp::Add)
}

fn is_sum(left: &str, right: &str, e: &ExprTree) -> bool
    ensures { result ≡ plain.is_sum left.now right.now e.now }
{
    match &e.node {
        ExprNode::Bin(op, a, b) => {
            is_add(*op) && is_name(left, a.get()) && is_name(right, b.get())
        }
        _ => false,
    }
}

fn is_sensor(form: &Form, decl: &Decl) -> bool
    ensures { result ≡ plain.is_sensor form.now decl.now }
{
    match decl {
        Decl::Sensor { kind, name } => is_int(*kind) && is_text(form.sensor.as_str(), name),
        _ => false,
    }
}

fn starts_at(number: u64, literal: &Option<Lit>) -> bool
    ensures { result ≡ plain.starts_at number literal.now }
{
    match literal {
        Some(literal) => match literal.value {
            LitValue::Number {
                minus: false,
                number: written,
            } => written.value == number,
            _ => false,
        },
        None => false,
    }
}

fn is_input(form: &Form, port: &PortDecl) -> bool
    ensures { result ≡ plain.is_input form.now port.now }
{
    matches!(port.sort, Sort::Input)
        && is_int(port.kind)
        && is_text(form.input.as_str(), &port.name)
        && port.initial.is_none()
}

fn is_output(form: &Form, port: &PortDecl) -> bool
    ensures { result ≡ plain.is_output form.now port.now }
{
    matches!(port.sort, Sort::Output)
        && is_int(port.kind)
        && is_text(form.output.as_str(), &port.name)
        && starts_at(form.initial, &port.initial)
}

fn are_ports(form: &Form, ports: &[PortDecl]) -> bool
    ensures { result ≡ plain.are_ports form.now ports.now }
{
    match ports {
        [input, output] => is_input(form, input) && is_output(form, output),
        _ => false,
    }
}

fn is_step(form: &Form, stmt: &StmtTree) -> bool
    ensures { result ≡ plain.is_step form.now (out-StmtTree stmt.now) }
{
    match stmt {
        StmtTree::Assign { target, value } => {
            is_text(form.output.as_str(), target)
                && is_sum(form.output.as_str(), form.input.as_str(), value)
        }
        _ => false,
    }
}

fn is_body(form: &Form, body: &[StmtTree]) -> bool
    ensures { result ≡ plain.is_body form.now body.now }
{
    match body {
        [stmt] => is_step(form, stmt),
        _ => false,
    }
}

fn is_task(form: &Form, decl: &Decl) -> bool
    ensures { result ≡ plain.is_task form.now decl.now }
{
    match decl {
        Decl::Task {
            public,
            name,
            worst,
            ports,
            body,
        } => {
            *public
                && is_text(form.task.as_str(), name)
                && worst.number.value == form.worst
                && matches!(worst.unit, Unit::Us)
                && are_ports(form, ports.as_slice())
                && is_body(form, body.as_slice())
        }
        _ => false,
    }
}

fn is_call(form: &Form, what: &ActKind) -> bool
    ensures { result ≡ plain.is_call form.now what.now }
{
    match what {
        ActKind::Task { task, args } => match args.as_slice() {
            [argument] => {
                is_text(form.task.as_str(), task) && is_name(form.sensor.as_str(), argument)
            }
            _ => false,
        },
        _ => false,
    }
}

fn is_activity(form: &Form, act: &Act) -> bool
    ensures { result ≡ plain.is_activity form.now act.now }
{
    act.freq.value == 1 && act.slots.is_empty() && is_call(form, &act.what) && act.guard.is_none()
}

fn is_mode(form: &Form, decl: &Decl) -> bool
    ensures { result ≡ plain.is_mode form.now decl.now }
{
    match decl {
        Decl::Mode {
            start,
            name,
            period,
            acts,
        } => {
            *start
                && is_text(form.mode.as_str(), name)
                && period.number.value == form.period
                && matches!(period.unit, Unit::Ms)
                && are_activities(form, acts.as_slice())
        }
        _ => false,
    }
}

fn are_activities(form: &Form, acts: &[Act]) -> bool
    ensures { result ≡ plain.are_activities form.now acts.now }
{
    match acts {
        [act] => is_activity(form, act),
        _ => false,
    }
}

fn are_decls(form: &Form, decls: &[Decl]) -> bool
    ensures { result ≡ plain.are_decls form.now decls.now }
{
    match decls {
        [sensor, task, mode] => {
            is_sensor(form, sensor) && is_task(form, task) && is_mode(form, mode)
        }
        _ => false,
    }
}

/// Whether the tree says this form.
pub fn says_form(form: &Form, tree: &Tree) -> bool
    ensures { result ≡ plain.says_form form.now tree.now }
{
    is_text(form.module.as_str(), &tree.name)
        && tree.imports.is_empty()
        && are_decls(form, tree.decls.as_slice())
}
