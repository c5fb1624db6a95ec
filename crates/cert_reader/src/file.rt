ghost use Rattle.std.specs.Prelude.{◌≡◌, ◌≢◌, List, Some, None, Ok, Err, IfOk, IfErr};
ghost use Rattle.serde_json.specs.View.{view};
ghost use Rattle.cert_reader.specs.declared.fault.CertFault.TheVariants.{NoMemory};
ghost use Rattle.tree_model.specs.CertificateView.{NodeView};
ghost use Rattle.cert_reader.specs.CertificateFile.{value_of, certificate_of};
ghost use Rattle.cert_reader.specs.Printed.{TextSpells};

use crate::CertFault;
use crate::not_printed::NotPrinted;
use crate::printed::read_printed;
use crate::reading::read_top;
use serde_json::Value;
use std::alloc::Global;
use tree_model::Certificate;

fn value_of_text(alloc: Global, bytes: &[u8]) -> Result<Value, CertFault>
    ensures ok { IfOk result (λ v. value_of bytes.now ≡ Some (view v)) }
    ensures fault { IfErr result (λ fault. fault ≢ NoMemory →
        (value_of bytes.now ≡ None) × (fault ≡ CertFault.NotJson)) }
{
    match Value::from_slice(alloc, bytes) {
        Ok(value) => Ok(value),
        Err(error) => {
            if error.is_memory() {
                Err(CertFault::NoMemory)
            } else {
                Err(CertFault::NotJson)
            }
        }
    }
}

/// The certificate that a file spells, or the first fault of its text. Bytes that are no JSON text
/// are `NotJson`. `NoMemory` may come in place of any answer.
pub fn read_certificate(alloc: Global, bytes: &[u8]) -> Result<Certificate, CertFault>
    ensures spelled { IfOk result (λ c. certificate_of bytes.now ≡ Ok c.nodes) }
    ensures fault { IfErr result (λ fault. fault ≢ NoMemory →
        certificate_of bytes.now ≡ Err fault) }
    // what the text of a certificate spells
    ensures back { (nodes : List NodeView) → TextSpells nodes }
{
    match read_printed(alloc, bytes) {
        Ok(nodes) => return Ok(Certificate { nodes }),
        Err(NotPrinted::NoMemory) => return Err(CertFault::NoMemory),
        Err(NotPrinted::Other) => {}
    }
    let top = value_of_text(alloc, bytes)?;
    let nodes = read_top(alloc, &top)?;
    Ok(Certificate { nodes })
}
