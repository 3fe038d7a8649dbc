ghost use Rattle.std.specs.Prelude.{◌≡◌};
ghost use Rattle.tdl_rules.specs.Lists.{first_place};
ghost use Rattle.tdl_program.specs.Programs as programs;

use tdl_tree::Decl;

/// Whether a declaration is one of a start mode.
fn is_start(decl: &Decl) -> bool
    ensures { result ≡ programs.is_start decl.now }
{
    match decl {
        Decl::Mode { start, .. } => *start,
        _ => false,
    }
}

/// The number of the first start mode among declarations.
pub(crate) fn first_start(decls: &[Decl]) -> Option<usize>
    ensures { result ≡ first_place programs.is_start decls.now }
{
    let mut number = 0;
    for decl in decls {
        if is_start(decl) {
            return Some(number);
        }
        number += 1;
    }
    None
}
