// Quick steps: a start element or an attribute by the wildcard, that is by a production that is not
// learned (EXI 8.4.3). Its name is read, and joins the tables where it is new. What the functions
// ask and leave is in specs/New.antt.
#![tactic(auto)]

ghost use Rattle.std.specs.Prelude.{ℕ, ◌<◌, ◌≡◌, Bool};
ghost use Rattle.std.proofs.Math.Option.{none};
ghost use Rattle.settings.specs.Meant.{settings_from};
ghost use Rattle.spec_exi.specs.Sizes.{max_events};
ghost use Rattle.spec_exi.specs.Event.{SE as kind_se, AT as kind_at};
ghost use Rattle.spec_exi.specs.Grammar.{kind_number};
ghost use Rattle.event.specs.declared.Event.TheVariants.{StartElement, Attribute};
ghost use Rattle.mem_state.specs.Joining.{uri_joining};
ghost use Rattle.mem_state.specs.Commit.{joined_uri, joined_name, StringsPre};
ghost use Rattle.read_field.specs.View.{alignment_of};
ghost use Rattle.read_production.specs.View.{seen_of};
ghost use Rattle.read_partition.specs.View.{read_as};
ghost use Rattle.read_qname.specs.Qnames.{joining_of, part_of, PairPre, NamePost};
ghost use Rattle.read_event.specs.Step.{StepPre, StepPost};
ghost use Rattle.read_first.specs.First.{FirstPre, AddPre, Added};
ghost use Rattle.read_new.specs.New.{element_strings, attribute_strings, name_in};

use event::Event;
use event_code::{AT, IN_TAG, SE};
use grammar_stepped::Stepped;
use mem_state::{Core, Growth};
use read_literal::Stopped;
use read_partition::StringRead;
use read_production::ProductionRead;
use settings::Settings;

// Reads a URI, then a local name: an attribute's where attr, an element's otherwise.
fn read_name(
    aligned: bool,
    stream: &[u8],
    at: usize,
    attr: bool,
    c: Core,
    text: &mut [u32],
    work: &[u32],
) -> Result<(StringRead, StringRead), Stopped>
    requires { PairPre stream.now at text.old work.now c }
    ensures { NamePost (alignment_of aligned) attr (λ w. Unit {0}) (λ w. none) stream.now at
        text.old work.now c text.new (name_in result) }
{
    let u = read_names::read_uri(aligned, stream, at, c.uris, c.stored, text, work)?;
    let l = read_names::read_local(
        aligned, stream, u.next, attr, u.row, u.place, u.size, c.names, u.stored, text, work,
    )?;
    Ok((u, l))
}

// Adds a URI and a local name that join.
fn join_names(work: &mut [u32], c: Core, u: StringRead, l: StringRead)
    requires { StringsPre work.old c (element_strings (read_as u) (read_as l)) }
    ensures { work.new
        ≡ joined_name c.names u.row (joining_of (read_as l))
        (joined_uri c.uris (uri_joining (element_strings (read_as u) (read_as l))) work.old) }
{
    let new_uri = u.joins.is_some();
    mem_state::join_uri(work, c.uris, new_uri, u.place, u.size);
    let new_name = l.joins.is_some();
    let hash = l.joins.unwrap_or(0);
    mem_state::join_name(work, c.names, u.row, new_name, l.place, l.size, hash);
}

// ---- a start element

fn add_element(
    u: StringRead,
    l: StringRead,
    g: Growth,
    c: Core,
    cell: usize,
    n: usize,
    events: &mut [u32],
    work: &mut [u32],
) -> Stepped
    requires kind_value { g.kind ≡ kind_number kind_se }
    requires name_value { g.name ≡ l.row }
    requires add_pre { AddPre events.old work.old (element_strings (read_as u) (read_as l)) g c cell n }
    ensures { (fragment : Bool) → Added fragment (StartElement (part_of (read_as u)) (part_of (read_as l)))
        (element_strings (read_as u) (read_as l)) g l.next l.stored events.old work.old c
        cell n events.new work.new result }
{
    let uri = read_qname::part_of(u);
    let local = read_qname::part_of(l);
    event::store(Event::StartElement(uri, local), events, cell);
    join_names(work, c, u, l);
    mem_state::grow(work, c, g);
    let tag = grammar_stepped::next_tag(n);
    let new_uri = u.joins.is_some();
    let new_name = l.joins.is_some();
    read_first::moved(
        c,
        l.next,
        l.stored,
        new_uri,
        new_name,
        false,
        g,
        IN_TAG,
        l.row,
        c.depth + 1,
        tag,
    )
}

// Reads a start element: a URI, then a local name.
pub fn new_element(
    o: Settings,
    stream: &[u8],
    p: ProductionRead,
    c: Core,
    cell: usize,
    n: usize,
    events: &mut [u32],
    text: &mut [u32],
    work: &mut [u32],
) -> Stepped
    requires step_pre { StepPre stream.now events.old text.old work.old c cell n }
    requires first_pre { FirstPre kind_se (settings_from o) stream.now work.old c (seen_of p) }
    ensures { StepPost (settings_from o) stream.now events.old text.old
        work.old c cell n events.new text.new work.new
        result }
{
    let (u, l) = match read_name(o.aligned, stream, p.next, false, c, text, work) {
        Ok(name) => name,
        Err(y) => return read_first::dropped(y.refusal, c, y.stored, text),
    };
    let g = read_first::growth(c, SE, u.row, l.row, work);
    if let Err(refusal) = read_first::judge(c, g, work) {
        return read_first::dropped(refusal, c, l.stored, text);
    }
    add_element(u, l, g, c, cell, n, events, work)
}

// ---- an attribute

fn add_attribute(
    u: StringRead,
    l: StringRead,
    x: StringRead,
    g: Growth,
    c: Core,
    cell: usize,
    events: &mut [u32],
    work: &mut [u32],
) -> Stepped
    requires kind_value { g.kind ≡ kind_number kind_at }
    requires add_pre { AddPre events.old work.old
        (attribute_strings (read_as u) (read_as l) (read_as x)) g c cell 0 }
    ensures { (n : ℕ) → n < max_events → (fragment : Bool) → Added fragment
        (Attribute (part_of (read_as u)) (part_of (read_as l)) (part_of (read_as x)))
        (attribute_strings (read_as u) (read_as l) (read_as x)) g x.next x.stored
        events.old work.old c cell n events.new work.new result }
{
    let uri = read_qname::part_of(u);
    let local = read_qname::part_of(l);
    let value = read_qname::part_of(x);
    event::store(Event::Attribute(uri, local, value), events, cell);
    join_names(work, c, u, l);
    read_known::join_value(work, c, l.row, x);
    mem_state::grow(work, c, g);
    let new_uri = u.joins.is_some();
    let new_name = l.joins.is_some();
    let new_value = x.joins.is_some();
    read_first::moved(
        c, x.next, x.stored, new_uri, new_name, new_value, g, c.mode, c.top, c.depth, c.tag,
    )
}

// Reads an attribute: a URI, a local name, then a value; the second of one name is SHAPE.
pub fn new_attribute(
    o: Settings,
    stream: &[u8],
    p: ProductionRead,
    c: Core,
    cell: usize,
    events: &mut [u32],
    text: &mut [u32],
    work: &mut [u32],
) -> Stepped
    requires step_pre { StepPre stream.now events.old text.old work.old c cell 0 }
    requires first_pre { FirstPre kind_at (settings_from o) stream.now work.old c (seen_of p) }
    ensures { (n : ℕ) → n < max_events → StepPost (settings_from o) stream.now
        events.old text.old work.old c cell n
        events.new text.new work.new result }
{
    let (u, l) = match read_name(o.aligned, stream, p.next, true, c, text, work) {
        Ok(name) => name,
        Err(y) => return read_first::dropped(y.refusal, c, y.stored, text),
    };
    let valued = read_values::read_value(
        o.aligned, stream, l.next, l.row, c.values, c.longest, c.capacity, l.stored, text, work,
    );
    let x = match valued {
        Ok(x) => x,
        Err(y) => return read_first::dropped(y.refusal, c, y.stored, text),
    };
    let g = read_first::growth(c, AT, u.row, l.row, work);
    if let Err(refusal) = read_first::judge(c, g, work) {
        return read_first::dropped(refusal, c, x.stored, text);
    }
    add_attribute(u, l, x, g, c, cell, events, work)
}
