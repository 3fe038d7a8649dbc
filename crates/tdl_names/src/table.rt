ghost use Rattle.std.specs.Prelude.{◌≡◌, ℕ, List, [], ◌∷◌, ◌++◌, map, bytes_eq, OnOk, IfOk};
ghost use Rattle.indexmap.specs.IndexMap.{get_by};
ghost use Rattle.tdl_rules.specs.Lists.{place_of};
ghost use Rattle.tdl_names.specs.Places.{or_here};

use indexmap::IndexMap;
use std::alloc::Global;
use std::marker::Model;
use tdl_base::NoMemory;
use tdl_tree::Id;

/// Names in order, with the first place of each.
#[derive(Drop)]
pub struct Table<'a> {
    ids: Vec<&'a Id>,
    first: IndexMap<&'a str, usize>,
}

impl<'a> Model for Table<'a> {
    ghost use Rattle.std.specs.Prelude.{◌≡◌, ℕ, List, map, bytes_eq};
    ghost use Rattle.tdl_tree.specs.declared.names.Id.{Id};
    ghost use Rattle.tdl_rules.specs.Lists.{place_of};
    ghost use Rattle.indexmap.specs.IndexMap.{get_by};

    ghost Value = { List Id };

    ghost view = { λ t. map (λ id. id.now) t.ids.items };

    ghost invariant = { λ t. (name : List ℕ) →
        get_by (λ k. bytes_eq name k.now) t.first ≡ place_of name (map (λ id. id.text) (map (λ id. id.now) t.ids.items)) };
}

/// Keeps the place of a name that has none yet.
fn keep_first<'a>(
    first: &mut IndexMap<&'a str, usize>,
    name: &'a str,
    place: usize,
) -> Result<(), NoMemory>
    ensures { OnOk result ((q : List ℕ) → get_by (λ k. bytes_eq q k.now) first.new ≡
        or_here (get_by (λ k. bytes_eq q k.now) first.old) (bytes_eq q name.now) place) }
{
    if first.get(name).is_none() {
        first.insert(name, place)?;
    }
    Ok(())
}

impl<'a> Table<'a> {
    /// No names. It takes no memory.
    pub fn new(alloc: Global) -> Table<'a>
        ensures { result ≡ [] }
    {
        Table {
            ids: Vec::new(alloc),
            first: IndexMap::new(alloc),
        }
    }

    /// The names with one more. Without memory the table is let go.
    pub fn with(self, id: &'a Id) -> Result<Table<'a>, NoMemory>
        ensures { IfOk result (λ table. table ≡ self.entry ++ id.now ∷ []) }
    {
        let Table { mut ids, mut first } = self;
        keep_first(&mut first, id.text.as_str(), ids.len())?;
        ids.push(id)?;
        Ok(Table { ids, first })
    }

    /// The names in order.
    pub fn ids(&self) -> &[&'a Id]
        ensures { map (λ id. id.now) result.now ≡ self.now }
    {
        self.ids.as_slice()
    }

    /// The first place of a name, counted from 0.
    pub fn place(&self, name: &str) -> Option<usize>
        ensures { result ≡ place_of name.now (map (λ id. id.text) self.now) }
    {
        self.first.get(name).copied()
    }
}
