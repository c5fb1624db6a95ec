ghost use Rattle.std.specs.Prelude.{◌≡◌, ◌≢◌, [], Some, IfOk, IfErr};
ghost use Rattle.toml.specs.Data.{Data};
ghost use Rattle.tree_model.specs.Lists.{first_of};
ghost use Rattle.system_file.specs.declared.fault.SystemFault.TheVariants.{NoMemory};
ghost use Rattle.system_file.specs.Document.{spelled_system};
ghost use Rattle.system_file.specs.Faults.{faults};
ghost use Rattle.system_file.specs.inner.Reading.{AreNodes};

use crate::parts::first_empty;
use crate::{Spot, SystemFault};
use std::alloc::Global;
use tree_model::{Core, Part, System};

/// The cores and the parts of a document, of which a part may still be empty.
#[derive(Drop)]
pub struct Nodes {
    pub cores: Vec<Core>,
    pub parts: Vec<Part>,
}

/// The system of these cores and parts, or the fault of their first empty part.
pub fn whole_system(alloc: Global, nodes: Nodes) -> Result<System, SystemFault>
    requires { (document : Data) × AreNodes document nodes.cores.items nodes.parts.items }
    ensures ok { IfOk result (λ sys. (document : Data) →
        AreNodes document nodes.cores.items nodes.parts.items →
        (faults document ≡ []) × (sys ≡ spelled_system document)) }
    ensures fault { IfErr result (λ fault. fault ≢ NoMemory → (document : Data) →
        AreNodes document nodes.cores.items nodes.parts.items →
        first_of (faults document) ≡ Some fault) }
{
    match first_empty(alloc, &nodes.parts)? {
        Some(place) => Err(SystemFault::Empty(Spot::Part(place as u32))),
        None => Ok(System {
            cores: nodes.cores,
            parts: nodes.parts,
        }),
    }
}
