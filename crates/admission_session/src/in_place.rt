ghost use Rattle.std.specs.Prelude.{◌≡◌, ◌-◌, ◌<◌, ◌≤◌, All, length, map, IfOk, IfErr, vec_capacity, vec_len};
ghost use Rattle.tree_model.specs.System.{IsSystem, part_at};
ghost use Rattle.admission_session.specs.Leaves.{fallen_part, with_changed, with_leaf, without_leaf};
ghost use Rattle.admission_session.specs.inner.Undone.{CanRise, moved_to, risen, risen_part, with_leaf_back, without_last};

use crate::copies::fallen;
use std::mem;
use tree_model::{Parent, Part, System};

/// Puts a leaf behind all parts, or hands it back for want of memory.
pub fn push_leaf(sys: &mut System, leaf: Part) -> Result<(), Part>
    requires system { IsSystem (with_leaf sys.old leaf) }
    ensures put { IfOk result (λ _. sys.new ≡ with_leaf sys.old leaf) }
    ensures unchanged { IfErr result (λ back. (sys.new ≡ sys.old) × (back ≡ leaf)) }
{
    match sys.parts.push(leaf) {
        Ok(()) => Ok(()),
        Err(refused) => Err(refused.value),
    }
}

/// Takes the last part off.
pub fn pop_leaf(sys: &mut System) -> Part
    requires some { 1 ≤ length sys.old.parts }
    requires system { IsSystem (without_last sys.old) }
    ensures taken { sys.new ≡ without_last sys.old }
    ensures leaf { result ≡ part_at sys.old (length sys.old.parts - 1) }
{
    let last = sys.parts.len() - 1;
    sys.parts.remove(last)
}

/// Puts another leaf in the place of part `q`, and hands out the one that stood there.
pub fn replace_leaf(sys: &mut System, q: usize, leaf: Part) -> Part
    requires is_part { q < length sys.old.parts }
    requires system { IsSystem (with_changed sys.old q leaf) }
    ensures known { IsSystem sys.old }
    ensures changed { sys.new ≡ with_changed sys.old q leaf }
    ensures was { result ≡ part_at sys.old q }
{
    mem::replace(&mut sys.parts[q], leaf)
}

/// Puts part `q` on core `c`.
pub fn move_to(sys: &mut System, q: usize, c: u32)
    requires is_part { q < length sys.old.parts }
    requires system { IsSystem (moved_to sys.old q c) }
    ensures { sys.new ≡ moved_to sys.old q c }
{
    let part = &mut sys.parts[q];
    part.parent = Parent::Core(c);
}

/// Takes part `q` out, and lets the parts behind it fall by one place.
pub fn take_leaf(sys: &mut System, q: usize) -> Part
    requires is_part { q < length sys.old.parts }
    requires system { IsSystem (without_leaf sys.old q) }
    ensures taken { sys.new ≡ without_leaf sys.old q }
    ensures leaf { result ≡ fallen_part q (part_at sys.old q) }
{
    let_fall(&mut sys.parts, q);
    sys.parts.remove(q)
}

/// Puts a leaf back in the place `q` from which it was taken. `room` has room for all parts.
pub fn put_back(sys: &mut System, q: usize, leaf: Part, room: Vec<Part>)
    requires place { q ≤ length sys.old.parts }
    requires empty { vec_len room ≡ 0 }
    requires room { length sys.old.parts < vec_capacity room }
    requires system { IsSystem (with_leaf_back sys.old q leaf) }
    ensures { sys.new ≡ with_leaf_back sys.old q leaf }
{
    let_rise(&mut sys.parts, q);
    let mut parts = room;
    let _moved = parts.append(&mut sys.parts);
    let _put = parts.insert(q, leaf);
    sys.parts = parts;
}

/// Lets the parents behind part `gap` fall by one place.
fn let_fall(parts: &mut [Part], gap: usize)
    ensures { parts.new ≡ map (fallen_part gap) parts.old }
{
    for q in 0..parts.len() {
        let part = &mut parts[q];
        part.parent = fallen(part.parent, gap);
    }
}

/// Lets the parents from part `gap` on rise by one place.
fn let_rise(parts: &mut [Part], gap: usize)
    requires { All (λ part. CanRise part.parent) parts.old }
    ensures { parts.new ≡ map (risen_part gap) parts.old }
{
    for q in 0..parts.len() {
        let part = &mut parts[q];
        part.parent = risen(part.parent, gap);
    }
}

/// A parent after a part was put at `gap`.
fn risen(parent: Parent, gap: usize) -> Parent
    requires { CanRise parent }
    ensures { result ≡ risen gap parent }
{
    match parent {
        Parent::Part(r) if gap <= r as usize => Parent::Part(r + 1),
        other => other,
    }
}
