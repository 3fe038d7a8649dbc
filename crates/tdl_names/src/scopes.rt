ghost use Rattle.std.specs.Prelude.{◌≡◌, Some, option_map};
ghost use Rattle.tdl_rules.specs.Parts as parts;
ghost use Rattle.tdl_names.specs.Standing.{outside};

use crate::{Module, Ports, Sources};
use std::marker::Model;
use tdl_rules::{Fault, Spot};

/// Where an expression stands: in a module of the sources, in a body or outside of bodies.
#[derive(Drop)]
pub struct Scope<'b, 'a> {
    sources: &'b Sources<'a>,
    file: u32,
    home: &'b Module<'a>,
    body: Option<&'b Ports<'a>>,
}

impl<'b, 'a> Model for Scope<'b, 'a> {
    ghost use Rattle.std.specs.Prelude.{option_map};
    ghost use Rattle.tdl_rules.specs.Naming.{Scope as Standing};
    ghost use Rattle.tdl_names.specs.Standing.{scope_code};

    ghost Value = { Standing };

    ghost coded = { scope_code };

    ghost view = { λ s. record {
      sources = s.sources.now;
      file = s.file;
      tree = s.home.now;
      body = option_map (λ ports. ports.now) s.body;
    } };
}

impl<'b, 'a> Scope<'b, 'a> {
    /// Outside of the bodies of a source, whose number is given.
    pub(crate) fn of_module(
        sources: &'b Sources<'a>,
        file: u32,
        home: &'b Module<'a>,
    ) -> Scope<'b, 'a>
        ensures { result ≡ outside sources.now file home.now }
    {
        Scope {
            sources,
            file,
            home,
            body: None,
        }
    }

    /// In the body of a task of the same source.
    pub fn in_body(&self, ports: &'b Ports<'a>) -> Scope<'b, 'a>
        ensures { result ≡ record self.now { body = Some ports.now } }
    {
        Scope {
            sources: self.sources,
            file: self.file,
            home: self.home,
            body: Some(ports),
        }
    }

    /// All sources.
    pub fn sources(&self) -> &'b Sources<'a>
        ensures { result.now ≡ self.now.sources }
    {
        self.sources
    }

    /// The number of the source.
    pub fn file(&self) -> usize
        ensures { result ≡ self.now.file }
    {
        self.file as usize
    }

    /// The source with its tables.
    pub fn module(&self) -> &'b Module<'a>
        ensures { result.now ≡ self.now.tree }
    {
        self.home
    }

    /// The ports of the task in whose body it is.
    pub fn body(&self) -> Option<&'b Ports<'a>>
        ensures { option_map (λ ports. ports.now) result ≡ self.now.body }
    {
        self.body
    }

    /// That a rule is broken at a place of the source.
    pub fn broken(&self, rule: u8, spot: Spot) -> Fault
        ensures { result ≡ parts.broken rule self.now.file spot }
    {
        Fault {
            rule,
            file: self.file,
            line: spot.line,
            col: spot.col,
        }
    }
}
