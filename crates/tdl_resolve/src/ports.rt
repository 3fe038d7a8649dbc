ghost use Rattle.std.specs.Prelude.{◌≡◌, ◌≤◌, ◌+◌, length};
ghost use Rattle.tdl_base.specs.declared.limits.TheConstants.{PORTS};
ghost use Rattle.tdl_program.specs.Ordinals as ordinals;
ghost use Rattle.tdl_program.specs.Bodies as bodies;

use tdl_names::{Ports, port_of};
use tdl_tree::{Id, PortDecl, Sort};

/// Whether two sorts are the same.
fn is_sort(wanted: Sort, sort: Sort) -> bool
    ensures { result ≡ ordinals.is_sort wanted sort }
{
    matches!(
        (wanted, sort),
        (Sort::Input, Sort::Input) | (Sort::Output, Sort::Output) | (Sort::Local, Sort::Local)
    )
}

/// How many of the ports are of a sort.
fn count_of(wanted: Sort, ports: &[PortDecl]) -> u16
    requires { length ports.now ≤ PORTS }
    ensures count { result ≡ length (ordinals.ports_of wanted ports.now) }
    ensures few { result ≤ PORTS }
{
    let mut count = 0;
    for port in ports {
        if is_sort(wanted, port.sort) {
            count += 1;
        }
    }
    count
}

/// The number of port `number` among those of a sort.
pub(crate) fn port_ordinal(wanted: Sort, ports: &[PortDecl], number: usize) -> u16
    requires { length ports.now ≤ PORTS }
    ensures ordinal { result ≡ ordinals.port_ordinal wanted ports.now number }
    ensures few { result ≤ PORTS }
{
    if number < ports.len() {
        count_of(wanted, &ports[..number])
    } else {
        count_of(wanted, ports)
    }
}

/// How many cells stand before those of a sort.
fn cells_before(wanted: Sort, ports: &[PortDecl]) -> u16
    requires { length ports.now ≤ PORTS }
    ensures cells { result ≡ ordinals.cells_before wanted ports.now }
    ensures few { result ≤ PORTS + PORTS }
{
    match wanted {
        Sort::Input => 0,
        Sort::Output => count_of(Sort::Input, ports),
        Sort::Local => count_of(Sort::Input, ports) + count_of(Sort::Output, ports),
    }
}

/// The cell of a port of a task, by the port's number; 0 where there is none.
pub fn cell_of(ports: &[PortDecl], number: usize) -> u16
    requires { length ports.now ≤ PORTS }
    ensures { result ≡ ordinals.cell_of ports.now number }
{
    match ports.get(number) {
        None => 0,
        Some(port) => cells_before(port.sort, ports) + port_ordinal(port.sort, ports, number),
    }
}

/// The cell of a port by its name; 0 where there is none.
pub(crate) fn cell_named(ports: &Ports, name: &Id) -> u16
    requires { length ports.now ≤ PORTS }
    ensures { result ≡ bodies.cell_named ports.now name.now }
{
    match port_of(ports, name.text.as_str()) {
        None => 0,
        Some((number, _port)) => cell_of(ports.items(), number),
    }
}
