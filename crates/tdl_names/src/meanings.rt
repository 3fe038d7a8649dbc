ghost use Rattle.std.specs.Prelude.{◌≡◌, option_map};
ghost use Rattle.tdl_rules.specs.Naming as naming;
ghost use Rattle.tdl_names.specs.Seen.{seen, held};

use crate::{Entry, Module, Ports, Scope};
use tdl_tree::PortDecl;

/// What a name of a module means.
#[derive(Drop)]
pub enum Meant<'b, 'a> {
    Imported,
    /// A declaration, with its number from 0.
    Says(usize, Entry<'b, 'a>),
}

/// What a name of a module means: the first declaration of that name.
pub fn meaning_of<'b, 'a>(home: &'b Module<'a>, name: &str) -> Option<Meant<'b, 'a>>
    ensures { option_map seen result ≡ naming.meant home.now name.now }
{
    let place = home.names().place(name)?;
    let imports = home.tree().imports.len();
    if place < imports {
        return Some(Meant::Imported);
    }
    let entry = home.entry(place - imports)?;
    Some(Meant::Says(place - imports, entry))
}

/// The first port of a name, with its number from 0.
pub fn port_of<'a>(ports: &Ports<'a>, name: &str) -> Option<(usize, &'a PortDecl)>
    ensures { held result ≡ naming.port_named ports.now name.now }
{
    match ports.names().place(name) {
        None => None,
        Some(place) => match ports.get(place) {
            None => None,
            Some(port) => Some((place, port)),
        },
    }
}

/// The module of an earlier source that has a name, with its number.
pub fn exporter_of<'b, 'a>(scope: &Scope<'b, 'a>, name: &str) -> Option<(usize, &'b Module<'a>)>
    ensures { held result ≡ naming.exporter scope.now name.now }
{
    match scope.sources().named(name) {
        Some((number, home)) if number < scope.file() => Some((number, home)),
        _ => None,
    }
}
