//! The trees of sources: what a source is made of, and the grammar (specs/) that says which words
//! spell which tree.
#![tactic(auto)]

mod activities;
mod declarations;
mod expressions;
mod kinds;
mod names;
mod statements;
mod words;

pub use activities::{Act, ActKind, Slots};
pub use declarations::{Decl, PortDecl, Sort, Tree};
pub use expressions::{ExprNode, ExprTree};
pub use kinds::kind_of;
pub use names::{Id, Lit, LitValue, Num, Time, Unit};
pub use statements::StmtTree;
pub use words::{Word, WordKind};
