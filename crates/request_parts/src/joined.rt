//! Lines of headers, joined by name.

ghost use Rattle.request_parts.specs.JoinedHeaders.{joined as joined_of, joined_to, lowered as lowered_of, separator as separator_of, with_line};
ghost use Rattle.std.specs.Prelude.{◌≡◌, IfOk, OnOk, map};

use indexmap::IndexSet;
use std::alloc::Global;
use waf_model::{Header, Items, Memory, Text};

// What stands between two joined lines of a header of that name.
fn separator(name: &[u8]) -> &'static [u8]
    ensures { result.now ≡ separator_of name.now }
{
    if name == b"cookie".as_slice() {
        b"; "
    } else {
        b", "
    }
}

// The headers of the lines, each where its first line stands, its name in lower case.
pub(crate) fn joined(alloc: Global, lines: &[Header]) -> Result<Items<Header>, Memory>
    ensures { IfOk result (λ headers. headers ≡ joined_of lines.now) }
{
    let mut headers = Vec::new(alloc);
    let mut names = IndexSet::new(alloc);
    for line in lines {
        add_line(alloc, &mut headers, &mut names, lowered(alloc, line)?)?;
    }
    Ok(Items::from_vec(headers))
}

// The line with its name in lower case.
fn lowered(alloc: Global, line: &Header) -> Result<Header, Memory>
    ensures { IfOk result (λ lower. lower ≡ lowered_of line.now) }
{
    let name = line.name.bytes().to_ascii_lowercase(alloc)?;
    let value = Text::of(alloc, line.value.bytes())?;
    Ok(Header {
        name: Text::from_vec(name),
        value,
    })
}

// A line more, where these are the names of the headers.
fn add_line(
    alloc: Global,
    headers: &mut Vec<Header>,
    names: &mut IndexSet<Vec<u8>>,
    line: Header,
) -> Result<(), Memory>
    requires { map (λ name. name.items) names.old.keys ≡ map (λ header. header.name) headers.old.items }
    ensures headers { OnOk result (headers.new.items ≡ with_line headers.old.items line) }
    ensures names { OnOk result (map (λ name. name.items) names.new.keys ≡ map (λ header. header.name) headers.new.items) }
{
    let name = Vec::from_slice(alloc, line.name.bytes())?;
    let (place, _) = names.insert_full(name)?;
    if place < headers.len() {
        join(&mut headers[place], &line)?;
        Ok(())
    } else {
        headers.push(line)?;
        Ok(())
    }
}

// Adds the value of a line to a header of its name.
fn join(header: &mut Header, line: &Header) -> Result<(), Memory>
    ensures { OnOk result (header.new ≡ joined_to header.old line.now) }
{
    header.value.push(separator(line.name.bytes()))?;
    header.value.push(line.value.bytes())
}
