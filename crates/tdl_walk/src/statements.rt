ghost use Rattle.std.specs.Prelude.{◌≡◌};
ghost use Rattle.tdl_rules.specs.Earliest.{earliest};
ghost use Rattle.tdl_rules.specs.Lists.{each};
ghost use Rattle.tdl_rules.specs.Parts as parts;
ghost use Rattle.tdl_rules.specs.Trees.{statements_in, body_statements};
ghost use Rattle.tdl_tree.specs.declared.statements.StmtTree.TheViews.{out-StmtTree};

use crate::{OnDeclaration, in_declarations};
use tdl_names::{Entry, Scope, Sources};
use tdl_rules::Fault;
use tdl_tree::{Decl, StmtTree};

/// A rule on statements.
pub trait OnStatement {
    ghost use Rattle.std.specs.Prelude.{List};
    ghost use Rattle.tdl_rules.specs.declared.fault.Fault.{Fault};
    ghost use Rattle.tdl_rules.specs.Naming.{Scope as Standing};
    ghost use Rattle.tdl_tree.specs.declared.statements.StmtTree.{StmtTree};
    ghost use Rattle.tdl_tree.specs.declared.statements.StmtTree.TheOpen.{StmtTree-F};

    /// The faults at the outermost layer of a statement, in the scope of its body.
    ghost gives: { Self → Standing → StmtTree-F StmtTree → List Fault };

    /// Notes the faults at one statement, without those inside its blocks.
    fn at(&self, scope: &Scope, statement: &StmtTree, best: &mut Option<Fault>)
        ensures { best.new ≡
            earliest best.old (gives self.now scope.now (out-StmtTree statement.now)) };
}

/// A rule at a statement and at each inside it.
#[cycle(statements)]
fn on_statement<R: OnStatement>(
    rule: &R,
    scope: &Scope,
    statement: &StmtTree,
    best: &mut Option<Fault>,
)
    ensures { best.new ≡ earliest best.old
        (each (λ s. R.gives rule.now scope.now (out-StmtTree s)) (statements_in statement.now)) }
{
    rule.at(scope, statement, best);
    match statement {
        StmtTree::Assign { .. } => {}
        StmtTree::If { then, other, .. } => {
            on_statements(rule, scope, then.as_slice(), best);
            match other {
                None => {}
                Some(block) => on_statements(rule, scope, block.as_slice(), best),
            }
        }
        StmtTree::Repeat { body, .. } => on_statements(rule, scope, body.as_slice(), best),
    }
}

/// A rule at each statement of a list, however deep.
#[cycle(statements)]
#[tactic(auto, unfolding(tdl_rules::specs::Earliest::earliest))]
fn on_statements<R: OnStatement>(
    rule: &R,
    scope: &Scope,
    statements: &[StmtTree],
    best: &mut Option<Fault>,
)
    ensures { best.new ≡ earliest best.old
        (each (λ s. R.gives rule.now scope.now (out-StmtTree s)) (body_statements statements.now)) }
{
    for statement in statements {
        on_statement(rule, scope, statement, best);
    }
}

/// A rule at each statement of each body.
#[derive(Drop)]
struct InBodies<'r, R> {
    rule: &'r R,
}

impl<'r, R: OnStatement> OnDeclaration for InBodies<'r, R> {
    ghost use Rattle.tdl_rules.specs.Parts.{at_statements};

    ghost gives = { λ it scope decl. at_statements (λ inside s. R.gives it.rule.now inside (out-StmtTree s)) scope decl };

    #[tactic(auto, unfolding(tdl_rules::specs::Earliest::earliest))]
    fn at<'b, 'a>(&self, scope: &Scope<'b, 'a>, entry: &Entry<'b, 'a>, best: &mut Option<Fault>) {
        if let Decl::Task { body, .. } = entry.decl() {
            let inside = scope.in_body(entry.ports());
            on_statements(self.rule, &inside, body.as_slice(), best);
        }
    }
}

/// A rule at each statement of each body, however deep.
pub fn in_statements<R: OnStatement>(rule: &R, sources: &Sources, best: &mut Option<Fault>)
    ensures { best.new ≡ earliest best.old (parts.in_statements (R.gives rule.now) sources.now) }
{
    in_declarations(&InBodies { rule }, sources, best);
}
