ghost use Rattle.std.specs.Prelude.{◌≡◌, ◌∷◌, []};
ghost use Rattle.tdl_rules.specs.Naming as naming;
ghost use Rattle.tdl_rules.specs.Parts as parts;

use crate::*;
use std::alloc::Global;
use std::test::Fail;
use tdl_base::{Kind, Listed, NoMemory, Text};
use tdl_names::{Entry, Scope, sources_of, spot_of, spot_of_activity, spot_of_expression};
use tdl_rules::Fault;
use tdl_tree::{Act, ActKind, Decl, ExprNode, ExprTree, Id, Num, StmtTree, Time, Tree, Unit};

fn id(alloc: Global, text: &str, line: u32) -> Result<Id, NoMemory> {
    Ok(Id {
        text: Text::from_str(alloc, text)?,
        line,
        col: 1,
    })
}

fn number(value: u64, line: u32) -> Num {
    Num {
        value,
        line,
        col: 9,
    }
}

fn time(line: u32) -> Time {
    Time {
        number: number(100, line),
        unit: Unit::Us,
    }
}

fn expression(line: u32) -> ExprTree {
    ExprTree {
        line,
        col: 9,
        node: ExprNode::Number(number(7, line)),
    }
}

/// A module of a task whose body assigns at line 3, and of a mode that updates an actuator at line 5.
fn sample(alloc: Global) -> Result<Tree, NoMemory> {
    let assignment = StmtTree::Assign {
        target: id(alloc, "o", 3)?,
        value: expression(3),
    };
    let update = Act {
        line: 5,
        col: 1,
        freq: number(1, 5),
        slots: Listed::new(alloc),
        what: ActKind::Update {
            actuator: id(alloc, "a", 5)?,
            value: expression(5),
        },
        guard: None,
    };
    let mut decls = Listed::new(alloc);
    decls.push(Decl::Task {
        public: false,
        name: id(alloc, "t", 2)?,
        worst: time(2),
        ports: Listed::new(alloc),
        body: Listed::only(alloc, assignment)?,
    })?;
    decls.push(Decl::Mode {
        start: true,
        name: id(alloc, "m", 4)?,
        period: time(4),
        acts: Listed::only(alloc, update)?,
    })?;
    Ok(Tree {
        name: id(alloc, "M", 1)?,
        imports: Listed::new(alloc),
        decls,
    })
}

/// A rule that each part of a program breaks; the rule's number says which part.
struct Every;

impl OnModule for Every {
    ghost gives = { λ _ scope. parts.broken 1 scope.file (naming.spot_of scope.tree.name) ∷ [] };

    fn at(&self, scope: &Scope, best: &mut Option<Fault>) {
        note(best, scope.broken(1, spot_of(&scope.module().tree().name)));
    }
}

impl OnDeclaration for Every {
    ghost gives = { λ _ scope _. parts.broken 2 scope.file (naming.spot_of scope.tree.name) ∷ [] };

    fn at<'b, 'a>(&self, scope: &Scope<'b, 'a>, _entry: &Entry<'b, 'a>, best: &mut Option<Fault>) {
        note(best, scope.broken(2, spot_of(&scope.module().tree().name)));
    }
}

impl OnMode for Every {
    ghost gives = { λ _ scope _ _. parts.broken 3 scope.file (naming.spot_of scope.tree.name) ∷ [] };

    fn at(&self, scope: &Scope, _period: &Time, _acts: &[Act], best: &mut Option<Fault>) {
        note(best, scope.broken(3, spot_of(&scope.module().tree().name)));
    }
}

impl OnActivity for Every {
    ghost gives = { λ _ scope _ act. parts.broken 4 scope.file (parts.spot_of_activity act) ∷ [] };

    fn at(&self, scope: &Scope, _period: &Time, act: &Act, best: &mut Option<Fault>) {
        note(best, scope.broken(4, spot_of_activity(act)));
    }
}

impl OnStatement for Every {
    ghost gives = { λ _ scope _. parts.broken 5 scope.file (naming.spot_of scope.tree.name) ∷ [] };

    fn at(&self, scope: &Scope, _statement: &StmtTree, best: &mut Option<Fault>) {
        note(best, scope.broken(5, spot_of(&scope.module().tree().name)));
    }
}

impl OnExpression for Every {
    ghost gives = { λ _ scope expression. parts.broken 6 scope.file (parts.spot_of_expression expression) ∷ [] };

    fn at(&self, scope: &Scope, expression: &ExprTree, best: &mut Option<Fault>) {
        note(best, scope.broken(6, spot_of_expression(expression)));
    }
}

// A walk that passes a part over would be proved of a trait that no rule can meet.
#[test]
fn each_part_is_reached(rt: HostRuntime) -> Result<(), Fail> {
    let alloc = rt.alloc();
    let trees = [sample(alloc)?];
    let sources = sources_of(alloc, &trees)?;
    let mut first = [None; 7];
    in_modules(&Every, &sources, &mut first[0]);
    in_declarations(&Every, &sources, &mut first[1]);
    in_modes(&Every, &sources, &mut first[2]);
    in_activities(&Every, &sources, &mut first[3]);
    in_statements(&Every, &sources, &mut first[4]);
    in_outermost(&Every, &sources, &mut first[5]);
    in_expressions(&Every, &sources, &mut first[6]);
    let places = [(1, 1), (2, 1), (3, 1), (4, 5), (5, 1), (6, 3), (6, 3)];
    for part in 0..7 {
        let place = first[part].map(|fault: Fault| (fault.rule, fault.line));
        assert_eq!(rt; place, Some(places[part]), "part {part}");
    }
    Ok(())
}
