// A qualified name (EXI 7.1.7), read: a URI and a local name. What the functions ask and leave, and
// what a name is that a learned production carries, is in specs/Qnames.antt, the text store in
// specs/Texts.antt.
#![tactic(auto)]

ghost use Rattle.std.specs.Prelude.{◌≡◌};
ghost use Rattle.std.proofs.Math.Option.{none};
ghost use Rattle.read_field.specs.View.{alignment_of};
ghost use Rattle.read_partition.specs.View.{read_as};
ghost use Rattle.read_qname.specs.View.{named_in, pair_of};
ghost use Rattle.read_qname.specs.Qnames.{part_of, PairPre, NamePost};

use event::Part;
use mem_state::{Core, Strings};
use read_literal::Stopped;
use read_partition::StringRead;

// The position after the name; the code points in the store; where both strings lie; and what is
// to join.
#[derive(Drop)]
pub struct Named {
    pub next: usize,
    pub stored: usize,
    pub uri: Part,
    pub local: Part,
    pub strings: Strings,
}

// Where a string lies.
pub fn part_of(s: StringRead) -> Part
    ensures { result ≡ part_of (read_as s) }
{
    Part {
        place: s.place,
        size: s.size,
    }
}

// Both strings, read.
fn paired(u: StringRead, l: StringRead) -> Named
    ensures { result ≡ pair_of u l }
{
    let mut strings = mem_state::no_strings();
    strings.uri_place = u.place;
    strings.uri_size = u.size;
    strings.new_uri = u.joins.is_some();
    strings.name_place = l.place;
    strings.name_size = l.size;
    strings.name_hash = l.joins.unwrap_or(0);
    strings.new_name = l.joins.is_some();
    strings.uri_row = u.row;
    strings.name_row = l.row;
    strings.owner = l.row;
    Named {
        next: l.next,
        stored: l.stored,
        uri: part_of(u),
        local: part_of(l),
        strings,
    }
}

// A URI, then a local name: an attribute's where attr, an element's otherwise.
pub fn read_name(
    aligned: bool,
    stream: &[u8],
    at: usize,
    attr: bool,
    c: Core,
    text: &mut [u32],
    work: &[u32],
) -> Result<Named, Stopped>
    requires { PairPre stream.now at text.old work.now c }
    ensures { NamePost (alignment_of aligned) attr (λ w. Unit {0}) (λ w. none) stream.now at
        text.old work.now c text.new (named_in result) }
{
    let u = read_names::read_uri(aligned, stream, at, c.uris, c.stored, text, work)?;
    let l = read_names::read_local(
        aligned, stream, u.next, attr, u.row, u.place, u.size, c.names, u.stored, text, work,
    )?;
    Ok(paired(u, l))
}
