use tree_model::{MAX_CORES, MAX_PARTS, Parent, System};

/// Of each core the first VCPU in the file, and behind each VCPU the next one of its core. Where
/// none is left stands the number of parts.
#[derive(Drop)]
pub struct Neighbours {
    pub first: [usize; MAX_CORES],
    pub next: [usize; MAX_PARTS],
}

impl Neighbours {
    ghost use Rattle.std.specs.Prelude.{◌<◌, suc, length};
    ghost use Rattle.isolation.specs.inner.Neighbours.{AreNeighbours, AreNeighboursFrom};

    /// Of a system.
    pub fn new(sys: &System) -> Neighbours
        ensures { AreNeighbours sys.now result }
    {
        let end = sys.parts().len();
        let mut neighbours = Neighbours {
            first: [end; MAX_CORES],
            next: [end; MAX_PARTS],
        };
        for v in (0..end).rev() {
            neighbours.put(sys, v);
        }
        neighbours
    }

    /// Puts part `v`, if it stands on a core, before those of its core behind it.
    fn put(&mut self, sys: &System, v: usize)
        requires is_part { v < length sys.now.parts }
        requires behind { AreNeighboursFrom sys.now self.old (suc v) }
        ensures { AreNeighboursFrom sys.now self.new v }
    {
        if let Parent::Core(core) = sys.parts()[v].parent() {
            self.next[v] = self.first[core as usize];
            self.first[core as usize] = v;
        }
    }
}
