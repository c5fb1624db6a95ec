ghost use Rattle.std.specs.Prelude.{◌≡◌, ℕ, ◌++◌, ◌^◌, ◌<◌, ◌≤◌, List, All, length, Ok, IfOk, OnOk, codes, decimal};
ghost use Rattle.cert_reader.specs.CertificateFile.{certificate_of};
ghost use Rattle.cert_reader.specs.Printed.{certificate_text, place_number, AreBelow, IsBelow, IsInRange, AreInRange};
ghost use Rattle.cert_reader.specs.Text.{behind, listed, quoted_number, witness_text, flag_text, place_text, node_text};

use itoa::{Buffer, write_digits};
use std::alloc::{AllocError, Global};
use tree_model::{Certificate, Node, Place};

/// The text of a certificate: JSON without spaces, and a newline.
pub fn print_certificate(alloc: Global, c: &Certificate) -> Result<Vec<u8>, AllocError>
    ensures text { IfOk result (λ text. text.items ≡ certificate_text c.now.nodes) }
    // it is read as the certificate
    ensures spells { IfOk result
        (λ text. length c.now.nodes ≤ 576 → certificate_of text.items ≡ Ok c.now.nodes) }
{
    let mut text = Vec::from_slice(alloc, b"{\"format\":1,\"nodes\":[")?;
    write_list(&mut text, &c.nodes)?;
    text.extend_from_slice(b"]}\n")?;
    Ok(text)
}

/// What stands in lists of a certificate.
trait Listed {
    ghost spelled: { Self → List ℕ };

    ghost in_range: { Self → Type 0 };

    fn write(&self, text: &mut Vec<u8>) -> Result<(), AllocError>
        ensures text { OnOk result (text.new.items ≡ text.old.items ++ spelled self.now) }
        ensures in_range { OnOk result (in_range self.now) };
}

/// Hits and falls are plain numbers.
impl Listed for u64 {
    ghost use Rattle.std.specs.Prelude.{decimal, ◌<◌, ◌^◌};

    ghost spelled = { λ n. decimal n };

    ghost in_range = { λ n. n < 2 ^ 64 };

    fn write(&self, text: &mut Vec<u8>) -> Result<(), AllocError> {
        write_number(text, *self)
    }
}

/// Points stand in quotes.
impl Listed for u128 {
    ghost use Rattle.std.specs.Prelude.{◌<◌, ◌^◌};
    ghost use Rattle.cert_reader.specs.Text.{quoted_number};

    ghost spelled = { λ n. quoted_number n };

    ghost in_range = { λ n. n < 2 ^ 128 };

    fn write(&self, text: &mut Vec<u8>) -> Result<(), AllocError> {
        write_quoted(text, *self)
    }
}

impl Listed for Node {
    ghost use Rattle.cert_reader.specs.Printed.{IsInRange};
    ghost use Rattle.cert_reader.specs.Text.{node_text};

    ghost spelled = { λ n. node_text n };

    ghost in_range = { λ n. IsInRange n };

    fn write(&self, text: &mut Vec<u8>) -> Result<(), AllocError> {
        write_node(text, self)
    }
}

/// Writes them one after another, with commas between them.
fn write_list<T: Listed>(text: &mut Vec<u8>, list: &[T]) -> Result<(), AllocError>
    ensures text { OnOk result (text.new.items ≡ text.old.items ++ listed T.spelled list.now) }
    ensures in_range { OnOk result (All T.in_range list.now) }
{
    let Some((first, rest)) = list.split_first() else {
        return Ok(());
    };
    first.write(text)?;
    for next in rest {
        text.push(b',')?;
        next.write(text)?;
    }
    Ok(())
}

fn write_node(text: &mut Vec<u8>, node: &Node) -> Result<(), AllocError>
    ensures text { OnOk result (text.new.items ≡ text.old.items ++ node_text node.now) }
    ensures in_range { OnOk result (IsInRange node.now) }
{
    let (budget, period) = (node.budget, node.period);
    text.extend_from_slice(b"{\"budget\":")?;
    write_number(text, budget)?;
    text.extend_from_slice(b",\"computed\":")?;
    text.extend_from_slice(flag(node.computed))?;
    text.extend_from_slice(b",\"falls\":[")?;
    write_list(text, &node.falls)?;
    text.extend_from_slice(b"],\"hits\":[")?;
    write_list(text, &node.hits)?;
    text.extend_from_slice(b"],\"kind\":\"")?;
    write_place(text, node.place, period)?;
    text.extend_from_slice(b",\"points\":[")?;
    write_list(text, &node.points)?;
    text.extend_from_slice(b"],\"witness\":")?;
    write_witness(text, node.witness)?;
    text.push(b'}')?;
    Ok(())
}

fn flag(flag: bool) -> &'static [u8]
    ensures { result.now ≡ flag_text flag }
{
    if flag { b"true" } else { b"false" }
}

/// The kind of a node, its period and its place, which stand one after another.
fn write_place(text: &mut Vec<u8>, place: Place, period: u64) -> Result<(), AllocError>
    ensures text { OnOk result (text.new.items ≡ text.old.items ++ place_text place period) }
    ensures in_range { place_number place < 2 ^ 32 }
{
    match place {
        Place::Part(q) => write_kind(text, b"part", period, q),
        Place::Core(c) => write_kind(text, b"core", period, c),
    }
}

fn write_kind(text: &mut Vec<u8>, kind: &[u8], period: u64, place: u32) -> Result<(), AllocError>
    ensures { OnOk result (text.new.items ≡ text.old.items ++ kind.now ++
        codes "\",\"period\":" ++ decimal period ++ codes ",\"place\":" ++ decimal place) }
{
    text.extend_from_slice(kind)?;
    text.extend_from_slice(b"\",\"period\":")?;
    write_number(text, period)?;
    text.extend_from_slice(b",\"place\":")?;
    write_number(text, place as u64)
}

fn write_witness(text: &mut Vec<u8>, witness: Option<u128>) -> Result<(), AllocError>
    ensures text { OnOk result (text.new.items ≡ text.old.items ++ witness_text witness) }
    ensures in_range { IsBelow (2 ^ 128) witness }
{
    match witness {
        Some(witness) => write_quoted(text, witness),
        None => text.extend_from_slice(b"null"),
    }
}

fn write_quoted(text: &mut Vec<u8>, number: u128) -> Result<(), AllocError>
    ensures { OnOk result (text.new.items ≡ text.old.items ++ quoted_number number) }
{
    if number <= u64::MAX as u128 {
        return write_short(text, number as u64);
    }
    let mut digits = Buffer::new();
    text.push(b'"')?;
    text.extend_from_slice(digits.format(number).as_bytes())?;
    text.push(b'"')?;
    Ok(())
}

/// The same of a number of at most 20 digits, at once.
fn write_short(text: &mut Vec<u8>, number: u64) -> Result<(), AllocError>
    ensures { OnOk result (text.new.items ≡ text.old.items ++ quoted_number number) }
{
    let mut quoted = [b'"'; 22];
    let start = write_digits(number, &mut quoted, 21);
    text.extend_from_slice(&quoted[start - 1..])
}

fn write_number(text: &mut Vec<u8>, number: u64) -> Result<(), AllocError>
    ensures { OnOk result (text.new.items ≡ text.old.items ++ decimal number) }
{
    let mut digits = Buffer::new();
    text.extend_from_slice(digits.format(number).as_bytes())
}
