// The content of an event (EXI 4), read by the production that its code names, which is not
// learned. Work memory is not written; text that is read before a string that is refused stays, and
// is the caller's to clear. What the functions ask and leave is in specs/Contents.antt.
#![tactic(auto)]

ghost use Rattle.std.specs.Prelude.{◌≡◌, false};
ghost use Rattle.spec_exi.specs.Event.{SE as kind_se, AT as kind_att, CH as kind_ch, CM as kind_cm, PI as kind_pi};
ghost use Rattle.spec_exi.specs.Grammar.{kind_number};
ghost use Rattle.spec_fields.specs.Field.{Alignment};
ghost use Rattle.mem_rows.specs.Rows.{kind_at};
ghost use Rattle.mem_state.specs.Joining.{valued_strings};
ghost use Rattle.read_field.specs.View.{alignment_of};
ghost use Rattle.read_partition.specs.View.{read_as};
ghost use Rattle.read_qname.specs.Qnames.{joining_of};
ghost use Rattle.read_production.specs.View.{seen_of};
ghost use Rattle.read_content.specs.View.{content_in, plain_of};
ghost use Rattle.read_content.specs.Contents.{ContentPre, ContentPost};

use event::Event;
use event_code::{AT, CH, CM, ED, EE, SD, SE};
use mem_state::{Core, Strings};
use name_rules::Role;
use read_literal::Stopped;
use read_partition::StringRead;
use read_production::ProductionRead;

// The position after the content; the code points in the store; the event; and what is to join.
#[derive(Drop)]
pub struct Content {
    pub next: usize,
    pub stored: usize,
    pub event: Event,
    pub strings: Strings,
}

// An event without a string, or whose strings join no table.
fn plain(event: Event, next: usize, stored: usize) -> Content
    ensures { result ≡ plain_of event next stored }
{
    let strings = mem_state::no_strings();
    Content {
        next,
        stored,
        event,
        strings,
    }
}

// The strings of an event with a value of the name in this row.
fn valued(s: Strings, owner: u32, x: StringRead) -> Strings
    ensures { result ≡ valued_strings s owner (joining_of (read_as x)) }
{
    let hash = x.joins.unwrap_or(0);
    mem_state::with_value(s, owner, x.joins.is_some(), x.place, x.size, hash)
}

// A start element.
fn read_element(
    aligned: bool,
    stream: &[u8],
    at: usize,
    p: ProductionRead,
    c: Core,
    text: &mut [u32],
    work: &[u32],
) -> Result<Content, Stopped>
    requires content_pre { ContentPre stream.now at text.old work.now c (seen_of p) }
    requires kind_value { p.kind ≡ kind_number kind_se }
    requires learned_value { p.learned ≡ false }
    ensures { ContentPost (alignment_of aligned) stream.now at text.old
        work.now c (seen_of p) text.new (content_in result) }
{
    let n = read_qname::read_name(aligned, stream, at, false, c, text, work)?;
    Ok(Content {
        next: n.next,
        stored: n.stored,
        event: Event::StartElement(n.uri, n.local),
        strings: n.strings,
    })
}

// An attribute: its name, then its value.
fn read_attribute(
    aligned: bool,
    stream: &[u8],
    at: usize,
    p: ProductionRead,
    c: Core,
    text: &mut [u32],
    work: &[u32],
) -> Result<Content, Stopped>
    requires content_pre { ContentPre stream.now at text.old work.now c (seen_of p) }
    requires kind_value { p.kind ≡ kind_number kind_att }
    requires learned_value { p.learned ≡ false }
    ensures { ContentPost (alignment_of aligned) stream.now at text.old
        work.now c (seen_of p) text.new (content_in result) }
{
    let n = read_qname::read_name(aligned, stream, at, true, c, text, work)?;
    let s = n.strings;
    let x = read_values::read_value(
        aligned, stream, n.next, s.owner, c.values, c.longest, c.capacity, n.stored, text, work,
    )?;
    let value = read_qname::part_of(x);
    Ok(Content {
        next: x.next,
        stored: x.stored,
        event: Event::Attribute(n.uri, n.local, value),
        strings: valued(s, s.owner, x),
    })
}

// Characters: a value of the innermost element.
fn read_characters(
    aligned: bool,
    stream: &[u8],
    at: usize,
    p: ProductionRead,
    c: Core,
    text: &mut [u32],
    work: &[u32],
) -> Result<Content, Stopped>
    requires content_pre { ContentPre stream.now at text.old work.now c (seen_of p) }
    requires kind_value { p.kind ≡ kind_number kind_ch }
    ensures { ContentPost (alignment_of aligned) stream.now at text.old
        work.now c (seen_of p) text.new (content_in result) }
{
    let x = read_values::read_value(
        aligned, stream, at, c.top, c.values, c.longest, c.capacity, c.stored, text, work,
    )?;
    let value = read_qname::part_of(x);
    Ok(Content {
        next: x.next,
        stored: x.stored,
        event: Event::Characters(value),
        strings: valued(mem_state::no_strings(), c.top, x),
    })
}

fn read_comment(
    stream: &[u8],
    at: usize,
    p: ProductionRead,
    c: Core,
    text: &mut [u32],
    work: &[u32],
) -> Result<Content, Stopped>
    requires content_pre { ContentPre stream.now at text.old work.now c (seen_of p) }
    requires kind_value { p.kind ≡ kind_number kind_cm }
    ensures { (a : Alignment) → ContentPost a stream.now at text.old
        work.now c (seen_of p) text.new (content_in result) }
{
    let x = read_values::read_text(Role::Comment, stream, at, c.stored, text)?;
    let y = read_qname::part_of(x);
    Ok(plain(Event::Comment(y), x.next, x.stored))
}

// An instruction: its target, then its text.
fn read_instruction(
    stream: &[u8],
    at: usize,
    p: ProductionRead,
    c: Core,
    text: &mut [u32],
    work: &[u32],
) -> Result<Content, Stopped>
    requires content_pre { ContentPre stream.now at text.old work.now c (seen_of p) }
    requires kind_value { kind_at p.kind ≡ kind_pi }
    ensures { (a : Alignment) → ContentPost a stream.now at text.old
        work.now c (seen_of p) text.new (content_in result) }
{
    let t = read_values::read_text(Role::Target, stream, at, c.stored, text)?;
    let x = read_values::read_text(Role::Instruction, stream, t.next, t.stored, text)?;
    let target = read_qname::part_of(t);
    let y = read_qname::part_of(x);
    Ok(plain(Event::Instruction(target, y), x.next, x.stored))
}

// Reads the content of an event by its production, which is not learned.
pub fn read_content(
    aligned: bool,
    stream: &[u8],
    at: usize,
    p: ProductionRead,
    c: Core,
    text: &mut [u32],
    work: &[u32],
) -> Result<Content, Stopped>
    requires content_pre { ContentPre stream.now at text.old work.now c (seen_of p) }
    requires learned_value { p.learned ≡ false }
    ensures { ContentPost (alignment_of aligned) stream.now at text.old
        work.now c (seen_of p) text.new (content_in result) }
{
    let kind = p.kind;
    match kind {
        SD => Ok(plain(Event::StartDocument, at, c.stored)),
        ED => Ok(plain(Event::EndDocument, at, c.stored)),
        SE => read_element(aligned, stream, at, p, c, text, work),
        AT => read_attribute(aligned, stream, at, p, c, text, work),
        EE => Ok(plain(Event::EndElement, at, c.stored)),
        CH => read_characters(aligned, stream, at, p, c, text, work),
        CM => read_comment(stream, at, p, c, text, work),
        _ => read_instruction(stream, at, p, c, text, work),
    }
}
