// The URI and the local name of a qualified name, read by their tables (EXI 7.3.2, 7.3.3). Work
// memory is not written: a literal is judged here, and joins its table once the whole event is
// accepted. What the functions ask and leave is in specs/.
#![tactic(auto)]

ghost use Rattle.std.specs.Prelude.{◌≡◌, ◌&&◌, List, ℕ, ◌≤◌, Result};
ghost use Rattle.spec_fields.specs.Field.{Alignment};
ghost use Rattle.text.specs.Text.{part};
ghost use Rattle.spec_exi.specs.Sizes.{max_store};
ghost use Rattle.spec_exi.specs.Tables.{local, name_allowed};
ghost use Rattle.mem_chain.specs.Chain.{link_of};
ghost use Rattle.mem_names.specs.Uris.{uri_store, FoundUri};
ghost use Rattle.mem_names.specs.Names.{name_store, FoundName};
ghost use Rattle.name_rules.specs.Names.{is_reserved};
ghost use Rattle.read_field.specs.View.{alignment_of};
ghost use Rattle.read_partition.specs.View.{string_in};
ghost use Rattle.read_names.specs.Uris.{UriPre, SeekUriPre, as_uri, as_missed, as_new_uri};
ghost use Rattle.read_names.specs.Uris.{UriPost, UriRowed};
ghost use Rattle.read_names.specs.Names.{NamePre, SeekNamePre, as_name, as_own, as_new_name};
ghost use Rattle.read_names.specs.Names.{NamePost, NameRowed};

use read_literal::Stopped;
use read_partition::{StringRead, dropped, found, laid, refused};
use refusal::Refusal;
use sizes::{MAX_NAMES, MAX_URIS};

// ---- URIs

// The row of the URI whose text is the n code points after the store.
fn seek_uri(text: &[u32], stored: usize, n: u32, work: &[u32], uris: u32) -> Option<u32>
    requires { SeekUriPre stored work.now uris }
    ensures { FoundUri work.now (uri_store text.now text.now)
        (part text.now (record { place = stored; size = n })) uris (link_of result) }
{
    let x = text::look_up(text, stored as u32, n);
    mem_names::find_uri(work, text, text, x, uris)
}

// A URI as a literal of n code points.
fn new_uri(
    stream: &[u8],
    at: usize,
    n: u32,
    uris: u32,
    stored: usize,
    text: &mut [u32],
    work: &[u32],
) -> Result<StringRead, Stopped>
    requires { UriPre stream.now at text.old stored work.now uris }
    ensures uri_post { (a : Alignment) → UriPost a (as_new_uri n) stream.now at text.old
        stored work.now uris text.new (string_in result) }
    ensures uri_rowed { UriRowed text.old stored work.now uris text.new (string_in result) }
{
    let read = read_literal::read_literal(stream, at, text, stored, n)?;
    if let Some(_) = seek_uri(text, stored, n, work, uris) {
        return Err(dropped(Refusal::Loose, read.next, n, stored, text));
    }
    if MAX_URIS <= uris as usize {
        return Err(dropped(Refusal::Limit, read.next, n, stored, text));
    }
    Ok(laid(read.next, stored, n, uris, Some(0)))
}

// The String of a URI that is no hit.
fn missed_uri(
    stream: &[u8],
    at: usize,
    uris: u32,
    stored: usize,
    text: &mut [u32],
    work: &[u32],
) -> Result<StringRead, Stopped>
    requires { UriPre stream.now at text.old stored work.now uris }
    ensures uri_post { (a : Alignment) → UriPost a as_missed stream.now at text.old stored
        work.now uris text.new (string_in result) }
    ensures uri_rowed { UriRowed text.old stored work.now uris text.new (string_in result) }
{
    let field = read_field::unsigned(stream, at).map_err(|refusal| refused(refusal, at, stored))?;
    new_uri(stream, field.next, field.value, uris, stored, text, work)
}

// The URI of a name.
pub fn read_uri(
    aligned: bool,
    stream: &[u8],
    at: usize,
    uris: u32,
    stored: usize,
    text: &mut [u32],
    work: &[u32],
) -> Result<StringRead, Stopped>
    requires { UriPre stream.now at text.old stored work.now uris }
    ensures uri_post { UriPost (alignment_of aligned) as_uri stream.now at text.old stored
        work.now uris text.new (string_in result) }
    ensures uri_rowed { UriRowed text.old stored work.now uris text.new (string_in result) }
{
    let field = read_field::choice(aligned, stream, at, uris + 1).map_err(|refusal| refused(
        refusal, at, stored,
    ))?;
    if field.value == 0 {
        return missed_uri(stream, field.next, uris, stored, text, work);
    }
    if uris < field.value {
        return Err(refused(Refusal::Reference, at, stored));
    }
    let row = field.value - 1;
    let u = mem_names::uri_at(work, row);
    Ok(found(field.next, u.place, u.size, row, stored))
}

// ---- local names

// Whether the text of n code points at a place is an attribute's and may not be, by the URI's text.
fn reserved(text: &[u32], attr: bool, place: u32, size: u32, at: u32, n: u32) -> bool
    ensures { result ≡ (attr && is_reserved (part text.now (record { place = place; size = size }))
        (part text.now (record { place = at; size = n }))) }
{
    if !attr {
        return false;
    }
    let u = text::look_up(text, place, size);
    let x = text::look_up(text, at, n);
    name_rules::is_reserved(u, x)
}

// A local name as a hit among the URI's own, which were judged as elements' when they joined.
fn own_name(
    aligned: bool,
    stream: &[u8],
    at: usize,
    attr: bool,
    uri: u32,
    place: u32,
    size: u32,
    names: u32,
    stored: usize,
    text: &[u32],
    work: &[u32],
) -> Result<StringRead, Stopped>
    requires { NamePre stream.now at text.now stored work.now names uri }
    ensures name_post { NamePost (alignment_of aligned) attr as_own stream.now at text.now
        stored work.now names uri place size text.now (string_in result) }
    ensures name_rowed { NameRowed text.now stored work.now names uri text.now (string_in result) }
{
    let among = mem_names::count_names(work, uri);
    let field = read_field::choice(aligned, stream, at, among).map_err(|refusal| refused(
        refusal, at, stored,
    ))?;
    let Some(row) = mem_names::nth_name(work, uri, field.value, names) else {
        return Err(refused(Refusal::Reference, at, stored));
    };
    let x = mem_names::name_at(work, row);
    if reserved(text, attr, place, size, x.place, x.size) {
        return Err(refused(Refusal::Name, field.next, stored));
    }
    Ok(found(field.next, x.place, x.size, row, stored))
}

// The row of the name of the URI whose text is the n code points after the store.
fn seek_name(
    text: &[u32],
    stored: usize,
    n: u32,
    hash: u32,
    work: &[u32],
    names: u32,
    uri: u32,
) -> Option<u32>
    requires { SeekNamePre text.now stored n hash work.now names uri }
    ensures { FoundName work.now (name_store text.now text.now) uri
        (part text.now (record { place = stored; size = n })) hash names (link_of result) }
{
    let x = text::look_up(text, stored as u32, n);
    mem_names::find_name(work, text, text, uri, x, hash, names)
}

// Whether the text of n code points after the store may be a local name, by the URI's text.
fn allowed(text: &[u32], attr: bool, place: u32, size: u32, stored: usize, n: u32) -> bool
    requires { stored ≤ max_store }
    ensures { result ≡ name_allowed
        (local attr (part text.now (record { place = place; size = size })))
        (part text.now (record { place = stored; size = n })) }
{
    let u = text::look_up(text, place, size);
    let x = text::look_up(text, stored as u32, n);
    name_rules::local_allowed(attr, u, x)
}

// A local name as a literal of n code points.
fn new_name(
    stream: &[u8],
    at: usize,
    n: u32,
    attr: bool,
    uri: u32,
    place: u32,
    size: u32,
    names: u32,
    stored: usize,
    text: &mut [u32],
    work: &[u32],
) -> Result<StringRead, Stopped>
    requires { NamePre stream.now at text.old stored work.now names uri }
    ensures name_post { (a : Alignment) → NamePost a attr (as_new_name n) stream.now at
        text.old stored work.now names uri place size text.new
        (string_in result) }
    ensures name_rowed { NameRowed text.old stored work.now names uri text.new (string_in result) }
{
    let read = read_literal::read_literal(stream, at, text, stored, n)?;
    if let Some(_) = seek_name(text, stored, n, read.hash, work, names, uri) {
        return Err(dropped(Refusal::Loose, read.next, n, stored, text));
    }
    if !allowed(text, attr, place, size, stored, n) {
        return Err(dropped(Refusal::Name, read.next, n, stored, text));
    }
    if MAX_NAMES <= names as usize {
        return Err(dropped(Refusal::Limit, read.next, n, stored, text));
    }
    Ok(laid(read.next, stored, n, names, Some(read.hash)))
}

// A local name of the URI with this row, whose text lies at this place: an attribute's where attr,
// an element's otherwise.
pub fn read_local(
    aligned: bool,
    stream: &[u8],
    at: usize,
    attr: bool,
    uri: u32,
    place: u32,
    size: u32,
    names: u32,
    stored: usize,
    text: &mut [u32],
    work: &[u32],
) -> Result<StringRead, Stopped>
    requires { NamePre stream.now at text.old stored work.now names uri }
    ensures name_post { NamePost (alignment_of aligned) attr as_name stream.now at text.old
        stored work.now names uri place size text.new (string_in result) }
    ensures name_rowed { NameRowed text.old stored work.now names uri text.new (string_in result) }
{
    let field = read_field::unsigned(stream, at).map_err(|refusal| refused(refusal, at, stored))?;
    let next = field.next;
    if field.value == 0 {
        return own_name(
            aligned, stream, next, attr, uri, place, size, names, stored, text, work,
        );
    }
    let n = field.value - 1;
    new_name(
        stream, next, n, attr, uri, place, size, names, stored, text, work,
    )
}
