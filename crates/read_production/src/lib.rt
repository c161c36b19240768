// An event code (EXI 6.2, 8.4), read to the production that it names. Memory is not written, and
// every function is safe and ends on any memory. What the functions ask and leave is in specs/.
#![tactic(auto)]

ghost use Rattle.std.specs.Prelude.{ℕ, ◌*◌, ◌≤◌, ◌<◌, ◌≡◌, length};
ghost use Rattle.read_field.specs.View.{alignment_of, NumberPre};
ghost use Rattle.settings.specs.Meant.{settings_from};
ghost use Rattle.event_code.specs.Numbers.{in_fragment, in_tag};
ghost use Rattle.mem_layout.specs.Layout.{name_rows, fragment_site};
ghost use Rattle.read_production.specs.View.{part_in, production_in, unlearned_as};
ghost use Rattle.read_production.specs.Levels.{PartOf, FixedPre, KeptRead, FixedAt};
ghost use Rattle.read_production.specs.Levels.{own_count};
ghost use Rattle.read_production.specs.Learned.{LearnedPre, LearnedRead, ChildRead};
ghost use Rattle.read_production.specs.Production.{ProductionPre, ProductionPost};

use event_code::{CH, EE, IN_ELEMENT, IN_FRAGMENT, IN_TAG, SE};
use mem_layout::FRAGMENT_SITE;
use read_field::Field;
use refusal::Refusal;
use settings::Settings;

// The position after a code; the kind of the production that it names; whether that is a learned
// one and, if so, the row of the name that it carries or 0, and the rows of the URI and of the name
// that named it.
#[derive(Clone, Copy)]
pub struct ProductionRead {
    pub next: usize,
    pub kind: u32,
    pub learned: bool,
    pub name: u32,
    pub uri: u32,
    pub local: u32,
}

// The same, field by field: an answer that a call writes to memory goes on in registers.
fn copied(p: ProductionRead) -> ProductionRead
    ensures { result ≡ p }
{
    ProductionRead {
        next: p.next,
        kind: p.kind,
        learned: p.learned,
        name: p.name,
        uri: p.uri,
        local: p.local,
    }
}

// A production that is not learned.
fn fixed(kind: u32, next: usize) -> ProductionRead
    ensures { result ≡ unlearned_as kind next }
{
    ProductionRead {
        next,
        kind,
        learned: false,
        name: 0,
        uri: 0,
        local: 0,
    }
}

// A value among so many.
pub fn read_part(aligned: bool, stream: &[u8], at: usize, among: u32) -> Result<Field, Refusal>
    requires { NumberPre stream.now at among 65536 }
    ensures { PartOf (alignment_of aligned) stream.now at among (part_in at result) }
{
    let part = read_field::choice(aligned, stream, at, among)?;
    if among <= part.value {
        return Err(Refusal::Code);
    }
    Ok(part)
}

// Comments and instructions, as kept: the last part of a code.
fn read_kept(o: Settings, stream: &[u8], next: usize) -> Result<ProductionRead, Refusal>
    requires { FixedPre stream.now next }
    ensures { (at : ℕ) → at ≤ 8 * length stream.now
        → KeptRead (settings_from o) stream.now next at (production_in at result) }
{
    let count = grammar_codes::kept_count(o.comments, o.instructions);
    let p = read_part(o.aligned, stream, next, count)?;
    let kind = grammar_codes::kept_at(p.value, o.comments, o.instructions);
    Ok(fixed(kind, p.next))
}

// A production that is not learned, by the part of the main level: outside an element the code's
// first, in an element its second.
pub fn read_fixed(
    o: Settings,
    stream: &[u8],
    next: usize,
    mode: u32,
) -> Result<ProductionRead, Refusal>
    requires { FixedPre stream.now next }
    ensures { (at : ℕ) → at ≤ 8 * length stream.now
        → FixedAt (settings_from o) mode stream.now next at (production_in at result) }
{
    let here = grammar_codes::fixed_count(mode);
    let on = grammar_codes::leads_on(mode, o.comments, o.instructions);
    let p = read_part(o.aligned, stream, next, here + on)?;
    if p.value < here {
        return Ok(fixed(grammar_codes::fixed_kind(mode, p.value), p.next));
    }
    read_kept(o, stream, p.next)
}

// The learned production of a site that has v newer ones, of count in all.
fn read_learned(
    site: u32,
    count: u32,
    v: u32,
    learned: u32,
    next: usize,
    work: &[u32],
) -> Result<ProductionRead, Refusal>
    requires { LearnedPre work.now site learned }
    ensures { (at : ℕ) → LearnedRead work.now site count v learned at next
        (production_in at result) }
{
    let Some(row) = mem_learned::nth_newest(work, site, count, v, learned) else {
        return Err(Refusal::Code);
    };
    let p = mem_learned::production_at(work, row);
    if p.kind < SE || CH < p.kind {
        return Err(Refusal::Code);
    }
    Ok(ProductionRead {
        next,
        kind: p.kind,
        learned: true,
        name: p.name,
        uri: p.uri,
        local: p.local,
    })
}

// The same of a fragment's content, where SE alone is learned.
fn read_child(
    count: u32,
    v: u32,
    learned: u32,
    next: usize,
    work: &[u32],
) -> Result<ProductionRead, Refusal>
    requires { LearnedPre work.now fragment_site learned }
    ensures { (at : ℕ) → ChildRead work.now count v learned at next (production_in at result) }
{
    let p = read_learned(FRAGMENT_SITE, count, v, learned, next, work)?;
    if SE < p.kind {
        return Err(Refusal::Code);
    }
    Ok(p)
}

// Reads an event code in a fragment's content (EXI 8.4.2).
pub fn read_between(
    o: Settings,
    stream: &[u8],
    at: usize,
    learned: u32,
    work: &[u32],
) -> Result<ProductionRead, Refusal>
    requires { ProductionPre stream.now at 0 learned work.now }
    ensures { (top : ℕ) → top < name_rows → ProductionPost (settings_from o) stream.now at
        in_fragment top learned work.now (production_in at result) }
{
    let count = mem_learned::count_at(work, FRAGMENT_SITE);
    let last = count + grammar_codes::fixed_count(IN_FRAGMENT);
    let on = grammar_codes::leads_on(IN_FRAGMENT, o.comments, o.instructions);
    let p = read_part(o.aligned, stream, at, last + on)?;
    if p.value < count {
        return read_child(count, p.value, learned, p.next, work);
    }
    if p.value < last {
        let kind = grammar_codes::fixed_kind(IN_FRAGMENT, p.value - count);
        return Ok(fixed(kind, p.next));
    }
    read_kept(o, stream, p.next)
}

// Reads an event code outside of every element.
fn read_outer(
    o: Settings,
    stream: &[u8],
    at: usize,
    mode: u32,
    learned: u32,
    work: &[u32],
) -> Result<ProductionRead, Refusal>
    requires production_pre { ProductionPre stream.now at 0 learned work.now }
    requires mode_lt_in_tag { mode < in_tag }
    ensures { (top : ℕ) → top < name_rows → ProductionPost (settings_from o) stream.now at
        mode top learned work.now (production_in at result) }
{
    let s = settings::copied(o);
    if mode == IN_FRAGMENT {
        return Ok(copied(read_between(s, stream, at, learned, work)?));
    }
    Ok(copied(read_fixed(s, stream, at, mode)?))
}

// Productions of an element's first level that are not learned: in its content, the end tag.
pub fn own_count(mode: u32) -> u32
    ensures { result ≡ own_count mode }
{
    if mode == IN_ELEMENT {
        return 1;
    }
    0
}

// Reads an event code, where the innermost element's name has row top and so many productions are
// learned in all.
pub fn read_production(
    o: Settings,
    stream: &[u8],
    at: usize,
    mode: u32,
    top: u32,
    learned: u32,
    work: &[u32],
) -> Result<ProductionRead, Refusal>
    requires { ProductionPre stream.now at top learned work.now }
    ensures { ProductionPost (settings_from o) stream.now at mode top learned
        work.now (production_in at result) }
{
    if mode < IN_TAG {
        return read_outer(o, stream, at, mode, learned, work);
    }
    let site = grammar_match::site_in(mode, top);
    let count = mem_learned::count_at(work, site);
    let last = count + own_count(mode);
    let p = read_part(o.aligned, stream, at, last + 1)?;
    if p.value < count {
        return read_learned(site, count, p.value, learned, p.next, work);
    }
    if p.value < last {
        return Ok(fixed(EE, p.next));
    }
    let s = settings::copied(o);
    Ok(copied(read_fixed(s, stream, p.next, mode)?))
}
