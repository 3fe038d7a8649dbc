ghost use Rattle.std.specs.Prelude.{◌≡◌, length};
ghost use Rattle.tdl_rules.specs.Naming as naming;

use crate::is_input;
use tdl_tree::PortDecl;

/// How many of a task's ports are inputs.
pub fn input_count(ports: &[PortDecl]) -> usize
    ensures { result ≡ length (naming.inputs ports.now) }
{
    let mut count = 0;
    for port in ports {
        if is_input(port) {
            count += 1;
        }
    }
    count
}
