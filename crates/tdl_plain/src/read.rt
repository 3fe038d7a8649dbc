ghost use Rattle.std.specs.Prelude.{◌≡◌, IfOk, IsErrOf};
ghost use Rattle.tdl_plain.specs.PlainTree.{IsPlainTree};
ghost use Rattle.tdl_plain.specs.declared.form.Form.{Form};

use crate::form_in::form_in;
use crate::tree::says_form;
use crate::{Form, SourceError};
use std::alloc::Global;
use tdl_tree::Tree;

/// The form that the tree of a source says: there is one at most. `NotPlain` comes exactly where it
/// says none.
pub fn read_plain(alloc: Global, tree: &Tree) -> Result<Form, SourceError>
    ensures plain { IfOk result (λ form. IsPlainTree form tree.now) }
    ensures only { (form : Form) → IsPlainTree form tree.now → IfOk result (λ found. found ≡ form) }
    ensures refused { IsErrOf result SourceError.NotPlain → (form : Form) →
        ¬ IsPlainTree form tree.now }
{
    let form = form_in(alloc, tree)?;
    if !form.is_plain() {
        return Err(SourceError::NotPlain);
    }
    if !says_form(&form, tree) {
        return Err(SourceError::NotPlain);
    }
    Ok(form)
}
