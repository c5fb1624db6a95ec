ghost use Rattle.std.specs.Prelude.{◌≡◌, ◌<◌, ◌^◌, Ok, IfOk};
ghost use Rattle.cert_reader.specs.CertificateFile.{certificate_of};
ghost use Rattle.cert_reader.specs.Document.{spelled_place};
ghost use Rattle.cert_reader.specs.Printed.{kind_text, place_number, IsBelow};
ghost use Rattle.cert_reader.specs.Text.{witness_text, flag_text, place_text};
ghost use Rattle.cert_reader.specs.inner.Text.{Stands};

use crate::kind::Kind;
use crate::listed::list_at;
use crate::not_printed::NotPrinted;
use crate::numerals::{behind, behind_word};
use crate::read_at::ReadAt;
use crate::reading::{MAX_NODES, place_of};
use std::alloc::Global;
use tree_model::{Node, Place};

/// The nodes of a text that is just as a certificate is printed, read in one pass and without its
/// JSON value.
pub fn read_printed(alloc: Global, bytes: &[u8]) -> Result<Vec<Node>, NotPrinted>
    ensures { IfOk result (λ nodes. certificate_of bytes.now ≡ Ok nodes.items) }
{
    let from = behind(bytes, 0, b"{\"format\":1,\"nodes\":[")?;
    let (nodes, to) = list_at::<Node>(alloc, bytes, from)?;
    let end = behind(bytes, to, b"]}\n")?;
    if end == bytes.len() && nodes.len() <= MAX_NODES {
        Ok(nodes)
    } else {
        Err(NotPrinted::Other)
    }
}

impl ReadAt for Node {
    ghost use Rattle.cert_reader.specs.Printed.{IsInRange};
    ghost use Rattle.cert_reader.specs.Text.{node_text};

    ghost text = { node_text };

    ghost in_range = { IsInRange };

    fn read_at(alloc: Global, bytes: &[u8], at: usize) -> Result<(Node, usize), NotPrinted> {
        let to_budget = behind(bytes, at, b"{\"budget\":")?;
        let (budget, to) = u64::read_at(alloc, bytes, to_budget)?;
        let to_computed = behind(bytes, to, b",\"computed\":")?;
        let (computed, to) = flag_at(bytes, to_computed)?;
        let to_falls = behind(bytes, to, b",\"falls\":[")?;
        let (falls, to) = list_at::<u64>(alloc, bytes, to_falls)?;
        let to_hits = behind(bytes, to, b"],\"hits\":[")?;
        let (hits, to) = list_at::<u64>(alloc, bytes, to_hits)?;
        let to_kind = behind(bytes, to, b"],\"kind\":\"")?;
        let (place, period, to) = place_at(alloc, bytes, to_kind)?;
        let to_points = behind(bytes, to, b",\"points\":[")?;
        let (points, to) = list_at::<u128>(alloc, bytes, to_points)?;
        let to_witness = behind(bytes, to, b"],\"witness\":")?;
        let (witness, to) = witness_at(alloc, bytes, to_witness)?;
        let end = behind(bytes, to, b"}")?;
        let node = Node {
            place,
            period,
            budget,
            computed,
            points,
            hits,
            witness,
            falls,
        };
        Ok((node, end))
    }
}

fn flag_at(bytes: &[u8], at: usize) -> Result<(bool, usize), NotPrinted>
    ensures { IfOk result (λ p. Stands bytes.now at p.1 (flag_text p.0)) }
{
    match behind_word(bytes, at, b"true") {
        Some(to) => Ok((true, to)),
        None => Ok((false, behind(bytes, at, b"false")?)),
    }
}

fn witness_at(alloc: Global, bytes: &[u8], at: usize) -> Result<(Option<u128>, usize), NotPrinted>
    ensures text { IfOk result (λ p. Stands bytes.now at p.1 (witness_text p.0)) }
    ensures in_range { IfOk result (λ p. IsBelow (2 ^ 128) p.0) }
{
    match behind_word(bytes, at, b"null") {
        Some(to) => Ok((None, to)),
        None => {
            let (witness, to) = u128::read_at(alloc, bytes, at)?;
            Ok((Some(witness), to))
        }
    }
}

/// The place and the period of a node, behind its kind, and the place in the text behind them.
fn place_at(alloc: Global, bytes: &[u8], at: usize) -> Result<(Place, u64, usize), NotPrinted>
    ensures text { IfOk result (λ p. Stands bytes.now at p.2 (place_text p.0 p.1)) }
    ensures in_range { IfOk result (λ p. place_number p.0 < 2 ^ 32) }
    ensures period { IfOk result (λ p. p.1 < 2 ^ 64) }
{
    let (kind, to) = kind_at(bytes, at)?;
    let to_period = behind(bytes, to, b"\",\"period\":")?;
    let (period, to) = u64::read_at(alloc, bytes, to_period)?;
    let to_place = behind(bytes, to, b",\"place\":")?;
    let (number, end) = u64::read_at(alloc, bytes, to_place)?;
    if number >= 1 << 32 {
        return Err(NotPrinted::Other);
    }
    Ok((place_of(kind, number as u32), period, end))
}

fn kind_at(bytes: &[u8], at: usize) -> Result<(Kind, usize), NotPrinted>
    ensures { IfOk result (λ p. Stands bytes.now at p.1 (kind_text (spelled_place p.0 0))) }
{
    match behind_word(bytes, at, b"part") {
        Some(to) => Ok((Kind::Part, to)),
        None => Ok((Kind::Core, behind(bytes, at, b"core")?)),
    }
}
