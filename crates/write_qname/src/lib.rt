// A qualified name (EXI 7.1.7), judged and written: a URI and a local name. What the functions ask
// and leave is in specs/Qnames.antt.
#![tactic(auto)]

ghost use Rattle.std.specs.Prelude.{◌≡◌};
ghost use Rattle.read_field.specs.View.{alignment_of};
ghost use Rattle.write_field.specs.Written.{Put};
ghost use Rattle.write_qname.specs.Qnames.{named_of, name_answer, NamePre, NamePost, PutNamePre};
ghost use Rattle.write_qname.specs.Qnames.{qname_bits};
ghost use Rattle.write_qname.specs.Premise.{part_at};

use event::Part;
use mem_state::{Core, Strings};
use refusal::Refusal;
use write_partition::StringJudged;

// The code points in the store after the name, and what is to join.
#[derive(Clone, Copy)]
pub struct NameJudged {
    pub stored: usize,
    pub strings: Strings,
}

// Both strings, judged.
fn named(uri: Part, local: Part, u: StringJudged, l: StringJudged) -> NameJudged
    ensures { result ≡ named_of uri local u l }
{
    let mut strings = mem_state::no_strings();
    strings.uri_place = uri.place;
    strings.uri_size = uri.size;
    strings.new_uri = u.joins;
    strings.name_place = local.place;
    strings.name_size = local.size;
    strings.name_hash = l.hash;
    strings.new_name = l.joins;
    strings.uri_row = u.row;
    strings.name_row = l.row;
    strings.owner = l.row;
    NameJudged {
        stored: l.stored,
        strings,
    }
}

// Judges a URI, then a local name: an attribute's where attr, an element's otherwise.
pub fn judge_name(
    opening: &[u32],
    text: &[u32],
    attr: bool,
    uri: Part,
    local: Part,
    c: Core,
    work: &[u32],
) -> Result<NameJudged, Refusal>
    requires { NamePre work.now c }
    ensures { NamePost opening.now text.now attr uri local c work.now
        (name_answer c.stored result) }
{
    let y = text::look_up(text, uri.place, uri.size);
    let u = write_names::judge_uri(opening, text, y, c.uris, c.stored, work)?;
    let x = text::look_up(text, local.place, local.size);
    let l = write_names::judge_local(opening, text, attr, u.row, y, x, c.names, u.stored, work)?;
    Ok(named(uri, local, u, l))
}

// Writes both strings as they were judged.
pub fn put_name(
    aligned: bool,
    stream: &mut [u8],
    at: usize,
    uri: Part,
    local: Part,
    c: Core,
    s: Strings,
    text: &[u32],
    work: &[u32],
) -> usize
    requires { PutNamePre stream.old at uri local c s text.now work.now }
    ensures { Put stream.old at
        (qname_bits work.now c s (part_at text.now uri)
        (part_at text.now local) (alignment_of aligned)) stream.new result }
{
    let y = text::look_up(text, uri.place, uri.size);
    let next = write_names::put_uri(aligned, stream, at, c.uris, s.uri_row, s.new_uri, y);
    let x = text::look_up(text, local.place, local.size);
    write_names::put_local(
        aligned, stream, next, s.uri_row, s.name_row, s.new_name, x, work,
    )
}
