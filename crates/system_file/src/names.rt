ghost use Rattle.std.specs.Prelude.{◌≡◌, ◌≢◌, ℕ, ◌<◌, ◌+◌, List, [], ◌∷◌, ◌++◌, false, not, if◌then◌else◌, length, IfOk, IfErr, OnOk, IfSome, position, bytes_eq};
ghost use Rattle.std.specs.Prelude.{codes};
ghost use Rattle.std.specs.List.{list_any};
ghost use Rattle.toml.specs.Data.{Data, table as toml_table, get};
ghost use Rattle.toml_items.specs.Item.{entries_view};
ghost use Rattle.tree_model.specs.Lists.{first_of};
ghost use Rattle.system_file.specs.declared.fault.SystemFault.TheVariants.{NoMemory};
ghost use Rattle.system_file.specs.Document.{text_of};
ghost use Rattle.system_file.specs.Faults.{name_faults, new_name_faults, required, text_faults};
ghost use Rattle.system_file.specs.inner.Reading.{HaveNames};

use crate::keys::text_at;
use crate::{Spot, SystemFault};
use indexmap::IndexSet;
use std::alloc::{AllocError, Global};
use std::marker::Model;
use toml_items::Entry;
use tree_model::Name;

/// Different names in the order in which they came, each found in one step.
#[derive(Drop)]
pub struct Names<'t> {
    names: IndexSet<&'t str>,
}

impl<'t> Model for Names<'t> {
    ghost use Rattle.std.specs.Prelude.{ℕ, List, map};

    ghost Value = { List (List ℕ) };

    ghost view = { λ n. map (λ name. name.now) n.names.keys };
}

impl<'t> Names<'t> {
    pub fn new(alloc: Global) -> Names<'t>
        ensures { result ≡ [] }
    {
        Names {
            names: IndexSet::new(alloc),
        }
    }

    /// The place of a name, counted from 0.
    #[tactic(auto, using(tree_model::proofs::Lists::position_map, tree_model::proofs::Lists::length_map))]
    fn find(&self, name: &str) -> Option<usize>
        ensures place { result ≡ position (bytes_eq name.now) self.now }
        ensures within { IfSome result (λ i. i < length self.now) }
    {
        self.names.get_index_of(name)
    }

    /// The place of a name among all names but the last.
    #[tactic(auto, using(tree_model::proofs::Lists::length_map))]
    pub fn find_before_last(&self, name: &str) -> Option<usize>
        ensures place { (before : List (List ℕ)) (last : List ℕ) →
            self.now ≡ before ++ last ∷ [] → result ≡ position (bytes_eq name.now) before }
        ensures within { IfSome result (λ i. i + 1 < length self.now) }
    {
        let place = self.find(name)?;
        let last = self.names.len() - 1;
        if place < last { Some(place) } else { None }
    }

    /// Puts a name at the end where it is new, and tells whether it was.
    #[tactic(auto, using(tree_model::proofs::Lists::list_any_map))]
    pub fn put(&mut self, name: &'t str) -> Result<bool, AllocError>
        ensures is_new { IfOk result (λ is_new.
            is_new ≡ not (list_any (bytes_eq name.now) self.old)) }
        ensures names { IfOk result (λ is_new.
            self.new ≡ (if is_new then self.old ++ name.now ∷ [] else self.old)) }
    {
        let is_new = self.names.insert(name)?;
        Ok(is_new)
    }

    pub fn clear(&mut self)
        ensures { self.new ≡ [] }
    {
        self.names.clear();
    }
}

/// The name that a text spells, put behind the names where it is none of them.
pub fn new_name<'t>(
    alloc: Global,
    text: &'t str,
    names: &mut Names<'t>,
    spot: Spot,
) -> Result<Name, SystemFault>
    ensures ok { IfOk result (λ name.
        (name_faults spot (list_any (bytes_eq text.now) names.old) text.now ≡ [])
        × (name ≡ text.now) × (list_any (bytes_eq text.now) names.old ≡ false)) }
    ensures put { OnOk result (names.new ≡ names.old ++ text.now ∷ []) }
    ensures fault { IfErr result (λ fault. fault ≢ NoMemory →
        first_of (name_faults spot (list_any (bytes_eq text.now) names.old) text.now)
        ≡ Some fault) }
{
    match Name::new(alloc, text.as_bytes())? {
        Some(name) => {
            if names.put(text)? {
                Ok(name)
            } else {
                Err(SystemFault::NameTaken(spot))
            }
        }
        None => Err(SystemFault::BadName(spot)),
    }
}

/// The name of an element, put behind the names of the elements before it, where it is none of
/// them.
pub fn name_at<'t>(
    alloc: Global,
    table: &[Entry<'t>],
    names: &mut Names<'t>,
    spot: Spot,
) -> Result<Name, SystemFault>
    ensures ok { IfOk result (λ name. (earlier : List Data) → HaveNames earlier names.old →
        let d = toml_table (entries_view table.now) in
        (required spot (text_faults spot (new_name_faults spot earlier)) (get (codes "name") d)
        ≡ [])
        × (name ≡ text_of (get (codes "name") d)) × HaveNames (earlier ++ d ∷ []) names.new) }
    ensures put { IfOk result (λ name. names.new ≡ names.old ++ name ∷ []) }
    ensures fault { IfErr result (λ fault. fault ≢ NoMemory →
        (earlier : List Data) → HaveNames earlier names.old →
        let at = get (codes "name") (toml_table (entries_view table.now)) in
        first_of (required spot (text_faults spot (new_name_faults spot earlier)) at)
        ≡ Some fault) }
{
    let text = text_at(table, "name", spot)?;
    new_name(alloc, text, names, spot)
}
