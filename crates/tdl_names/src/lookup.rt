ghost use Rattle.std.specs.Prelude.{◌≡◌, [], ◌∷◌, option_map};
ghost use Rattle.tdl_rules.specs.Naming as naming;
ghost use Rattle.tdl_rules.specs.Meanings as meanings;
ghost use Rattle.tdl_names.specs.Seen.{seen, held};

use crate::{Meant, Scope, exporter_of, meaning_of, port_of, spot_of};
use tdl_rules::{Found, Target};
use tdl_tree::{Decl, Id, PortDecl, Sort};

/// That a part of a name breaks a rule.
fn lost(rule: u8, part: &Id) -> Found
    ensures { result ≡ Found.Lost rule (naming.spot_of part.now) }
{
    Found::Lost {
        rule,
        at: spot_of(part),
    }
}

/// An output of a task.
fn output_found(file: usize, task: usize, part: &Id, port: Option<(usize, &PortDecl)>) -> Found
    ensures { result ≡ meanings.output_found file task part.now (held port.entry) }
{
    match port {
        Some((number, port)) if matches!(port.sort, Sort::Output) => Found::Is {
            kind: port.kind,
            target: Target::Output {
                module: file,
                task,
                port: number,
            },
        },
        _ => lost(3, part),
    }
}

/// A constant, or outside of bodies a sensor.
fn in_module(in_body: bool, part: &Id, meant: &Option<Meant>) -> Found
    ensures { result ≡ meanings.in_module in_body part.now (option_map seen meant.now) }
{
    match meant {
        Some(Meant::Says(number, entry)) => match entry.decl() {
            Decl::Const { kind, value, .. } => Found::Is {
                kind: *kind,
                target: Target::Fixed(*value),
            },
            Decl::Sensor { kind, .. } if !in_body => Found::Is {
                kind: *kind,
                target: Target::Sensor(*number),
            },
            _ => lost(3, part),
        },
        _ => lost(3, part),
    }
}

/// A name of one part.
fn find_one(scope: &Scope, part: &Id) -> Found
    ensures { result ≡ meanings.find_one scope.now scope.now.body part.now }
{
    let meant = meaning_of(scope.module(), part.text.as_str());
    match scope.body() {
        None => in_module(false, part, &meant),
        Some(ports) => match port_of(ports, part.text.as_str()) {
            None => in_module(true, part, &meant),
            Some((number, port)) => Found::Is {
                kind: port.kind,
                target: Target::Port(number),
            },
        },
    }
}

/// A public constant of an imported module.
fn public_constant(part: &Id, meant: &Option<Meant>) -> Found
    ensures { result ≡ meanings.public_constant part.now (option_map seen meant.now) }
{
    match meant {
        None => lost(3, part),
        Some(Meant::Imported) => lost(4, part),
        Some(Meant::Says(_, entry)) => match entry.decl() {
            Decl::Const {
                public: true,
                kind,
                value,
                ..
            } => Found::Is {
                kind: *kind,
                target: Target::Fixed(*value),
            },
            _ => lost(4, part),
        },
    }
}

/// An output of a public task of an imported module.
fn public_task(file: usize, part: &Id, last: &Id, meant: &Option<Meant>) -> Found
    ensures { result ≡ meanings.public_task file part.now last.now (option_map seen meant.now) }
{
    match meant {
        None => lost(3, part),
        Some(Meant::Imported) => lost(4, part),
        Some(Meant::Says(task, entry)) => match entry.decl() {
            Decl::Task { public: true, .. } => {
                output_found(
                    file,
                    *task,
                    last,
                    port_of(entry.ports(), last.text.as_str()),
                )
            }
            _ => lost(4, part),
        },
    }
}

/// A name of two parts.
fn find_two(scope: &Scope, first: &Id, second: &Id) -> Found
    ensures { result ≡ meanings.found scope.now (first.now ∷ second.now ∷ []) }
{
    match meaning_of(scope.module(), first.text.as_str()) {
        None => lost(3, first),
        Some(Meant::Imported) => match exporter_of(scope, first.text.as_str()) {
            None => Found::Unknown,
            Some((_, home)) => public_constant(second, &meaning_of(home, second.text.as_str())),
        },
        Some(Meant::Says(task, entry)) => match (entry.decl(), scope.body()) {
            (Decl::Task { .. }, None) => {
                let port = port_of(entry.ports(), second.text.as_str());
                output_found(scope.file(), task, second, port)
            }
            _ => lost(3, first),
        },
    }
}

/// A name of three parts.
fn find_three(scope: &Scope, first: &Id, second: &Id, third: &Id) -> Found
    ensures { result ≡ meanings.found scope.now (first.now ∷ second.now ∷ third.now ∷ []) }
{
    match meaning_of(scope.module(), first.text.as_str()) {
        Some(Meant::Imported) => match exporter_of(scope, first.text.as_str()) {
            None => Found::Unknown,
            Some((file, home)) => match scope.body() {
                None => {
                    let meant = meaning_of(home, second.text.as_str());
                    public_task(file, second, third, &meant)
                }
                Some(_) => lost(3, first),
            },
        },
        _ => lost(3, first),
    }
}

/// What a name in an expression means, or the target of an assignment.
pub fn found_in(scope: &Scope, parts: &[Id]) -> Found
    ensures { result ≡ meanings.found scope.now parts.now }
{
    match parts {
        [first] => find_one(scope, first),
        [first, second] => find_two(scope, first, second),
        [first, second, third] => find_three(scope, first, second, third),
        _ => Found::Unknown,
    }
}
