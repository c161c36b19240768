// The URI and the local name of a qualified name (EXI 7.1.7), judged and written. Work memory is
// read alone: what joins a table is added once the whole event is accepted. What the functions ask
// and leave is in specs/Uris.antt and specs/Names.antt.
#![tactic(auto)]

ghost use Rattle.read_field.specs.View.{alignment_of};
ghost use Rattle.write_field.specs.Written.{Put};
ghost use Rattle.write_partition.specs.Judged.{string_answer};
ghost use Rattle.write_names.specs.Uris.{NewUriPre, NewUriPost, UriPre, UriPost, uri_bits};
ghost use Rattle.write_names.specs.Uris.{PutUriPre};
ghost use Rattle.write_names.specs.Names.{NewNamePre, NewNamePost, NamePre, NamePost};
ghost use Rattle.write_names.specs.Names.{name_bits, PutNamePre};

use refusal::Refusal;
use sizes::{MAX_NAMES, MAX_STRING, MAX_URIS};
use write_partition::StringJudged;

// ---- URIs

// A URI that its table does not have.
fn judge_new_uri(x: &[u32], uris: u32, stored: usize) -> Result<StringJudged, Refusal>
    requires { NewUriPre x.now uris stored }
    ensures { NewUriPost x.now uris stored (string_answer stored result) }
{
    write_partition::literal_fault(x, stored)?;
    if MAX_URIS <= uris as usize {
        return Err(Refusal::Limit);
    }
    Ok(StringJudged {
        row: uris,
        stored: stored + x.len(),
        joins: true,
        hash: 0,
    })
}

// Judges the URI x of a name: its length, then where its table has it or, of a literal, the other
// tests.
pub fn judge_uri(
    opening: &[u32],
    text: &[u32],
    x: &[u32],
    uris: u32,
    stored: usize,
    work: &[u32],
) -> Result<StringJudged, Refusal>
    requires { UriPre work.now uris stored }
    ensures { UriPost opening.now text.now x.now uris stored
        work.now (string_answer stored result) }
{
    if MAX_STRING < x.len() {
        return Err(Refusal::Limit);
    }
    match mem_names::find_uri(work, opening, text, x, uris) {
        Some(row) => Ok(StringJudged {
            row,
            stored,
            joins: false,
            hash: 0,
        }),
        None => judge_new_uri(x, uris, stored),
    }
}

// Writes a URI (EXI 7.3.2): a choice among the URIs and one more, 0 for a miss, and the String.
pub fn put_uri(
    aligned: bool,
    stream: &mut [u8],
    at: usize,
    uris: u32,
    row: u32,
    joins: bool,
    x: &[u32],
) -> usize
    requires { PutUriPre stream.old at uris row joins x.now }
    ensures { Put stream.old at (uri_bits uris row joins x.now (alignment_of aligned))
        stream.new result }
{
    if joins {
        let next = write_field::put_choice(aligned, stream, at, uris + 1, 0);
        return write_string::put_string(stream, next, 0, x);
    }
    write_field::put_choice(aligned, stream, at, uris + 1, row + 1)
}

// ---- local names

// A local name that its URI does not have.
fn judge_new_name(
    attr: bool,
    u: &[u32],
    x: &[u32],
    names: u32,
    stored: usize,
    h: u32,
) -> Result<StringJudged, Refusal>
    requires { NewNamePre x.now names stored }
    ensures { NewNamePost attr u.now x.now names stored h (string_answer stored result) }
{
    write_partition::literal_fault(x, stored)?;
    if !name_rules::local_allowed(attr, u, x) {
        return Err(Refusal::Name);
    }
    if MAX_NAMES <= names as usize {
        return Err(Refusal::Limit);
    }
    Ok(StringJudged {
        row: names,
        stored: stored + x.len(),
        joins: true,
        hash: h,
    })
}

// Judges the local name x of the URI with this row and the text u: an attribute's where attr, an
// element's otherwise. A name that its table has was judged as an element's when it joined.
pub fn judge_local(
    opening: &[u32],
    text: &[u32],
    attr: bool,
    uri: u32,
    u: &[u32],
    x: &[u32],
    names: u32,
    stored: usize,
    work: &[u32],
) -> Result<StringJudged, Refusal>
    requires { NamePre work.now names uri stored }
    ensures { NamePost opening.now text.now attr uri u.now
        x.now names stored work.now (string_answer stored result) }
{
    if MAX_STRING < x.len() {
        return Err(Refusal::Limit);
    }
    let h = mem_entries::hash(x);
    let Some(row) = mem_names::find_name(work, opening, text, uri, x, h, names) else {
        return judge_new_name(attr, u, x, names, stored, h);
    };
    if attr & name_rules::is_reserved(u, x) {
        return Err(Refusal::Name);
    }
    Ok(StringJudged {
        row,
        stored,
        joins: false,
        hash: 0,
    })
}

// Writes a local name (EXI 7.3.3): a hit among its URI's own, or the String, its length raised
// by 1.
pub fn put_local(
    aligned: bool,
    stream: &mut [u8],
    at: usize,
    uri: u32,
    row: u32,
    joins: bool,
    x: &[u32],
    work: &[u32],
) -> usize
    requires { PutNamePre stream.old at uri row joins x.now work.now }
    ensures { Put stream.old at
        (name_bits work.now uri row joins x.now (alignment_of aligned))
        stream.new result }
{
    if joins {
        return write_string::put_string(stream, at, 1, x);
    }
    let among = mem_names::count_names(work, uri);
    let name = mem_names::name_at(work, row);
    write_partition::put_hit(aligned, stream, at, 0, among, name.number)
}
