// Quick steps: an event with a value, by a learned production, which carries its name (EXI 8.4.3).
// Its strings but the value are known, and nothing is learned. What the functions ask and leave is
// in specs/Known.antt.
#![tactic(auto)]

ghost use Rattle.std.specs.Prelude.{◌≡◌};
ghost use Rattle.spec_exi.specs.Event.{AT as kind_at, CH as kind_ch};
ghost use Rattle.event.specs.declared.Event.TheVariants.{Attribute};
ghost use Rattle.mem_names.specs.Uris.{UriRowPre};
ghost use Rattle.mem_names.specs.Names.{NameRowPre};
ghost use Rattle.mem_marks.specs.Marks.{with_mark};
ghost use Rattle.mem_state.specs.Commit.{ValuePre, joined_value};
ghost use Rattle.read_field.specs.View.{alignment_of};
ghost use Rattle.read_production.specs.View.{seen_of};
ghost use Rattle.read_partition.specs.View.{read_as};
ghost use Rattle.read_qname.specs.Qnames.{joining_of};
ghost use Rattle.read_event.specs.Step.{StepPre};
ghost use Rattle.read_known.specs.Known.{uri_part, local_part, LearnedPre, KnownPost};
ghost use Rattle.read_known.specs.Known.{AttributePost};

use event::{Event, Part};
use grammar_stepped::Stepped;
use mem_state::Core;
use read_partition::StringRead;
use read_production::ProductionRead;
use refusal::SHAPE;

// Where a URI lies, by its row.
pub fn uri_part(work: &[u32], row: u32) -> Part
    requires { UriRowPre work.now row }
    ensures { result ≡ uri_part work.now row }
{
    let u = mem_names::uri_at(work, row);
    Part {
        place: u.place,
        size: u.size,
    }
}

// Where a local name lies, by its row.
pub fn local_part(work: &[u32], row: u32) -> Part
    requires { NameRowPre work.now row }
    ensures { result ≡ local_part work.now row }
{
    let l = mem_names::name_at(work, row);
    Part {
        place: l.place,
        size: l.size,
    }
}

// An attribute by the production that carries its name.
fn attribute(work: &[u32], uri: u32, local: u32, value: Part) -> Event
    requires uri_row_pre { UriRowPre work.now uri }
    requires name_row_pre { NameRowPre work.now local }
    ensures { result
        ≡ Attribute (uri_part work.now uri) (local_part work.now local)
        value }
{
    let u = uri_part(work, uri);
    let l = local_part(work, local);
    Event::Attribute(u, l, value)
}

// Adds a value that was read, if it is to join.
pub fn join_value(work: &mut [u32], c: Core, owner: u32, x: StringRead)
    requires { ValuePre work.old c.values owner (joining_of (read_as x)) }
    ensures { work.new ≡ joined_value c.values owner (joining_of (read_as x)) work.old }
{
    let joins = x.joins.is_some();
    let hash = x.joins.unwrap_or(0);
    mem_state::join_value(work, c.values, owner, joins, x.place, x.size, hash);
}

// Adds an attribute's value, which may join, and the mark of its name.
fn keep(work: &mut [u32], c: Core, name: u32, x: StringRead)
    requires { ValuePre work.old c.values name (joining_of (read_as x)) }
    ensures { work.new
        ≡ with_mark (joined_value c.values name (joining_of (read_as x)) work.old) c.tag name }
{
    join_value(work, c, name, x);
    mem_marks::mark(work, name, c.tag);
}

// Reads an attribute whose name is known; the second of one name is SHAPE.
pub fn known_attribute(
    aligned: bool,
    stream: &[u8],
    p: ProductionRead,
    c: Core,
    cell: usize,
    events: &mut [u32],
    text: &mut [u32],
    work: &mut [u32],
) -> Stepped
    requires step_pre { StepPre stream.now events.old text.old work.old c cell 0 }
    requires learned_pre { LearnedPre kind_at stream.now c (seen_of p) }
    ensures { AttributePost (alignment_of aligned) stream.now events.old
        text.old work.old c cell (seen_of p) events.new text.new
        work.new result }
{
    let read = read_values::read_value(
        aligned, stream, p.next, p.name, c.values, c.longest, c.capacity, c.stored, text, work,
    );
    let x = match read {
        Ok(x) => x,
        Err(y) => return grammar_stepped::answer(y.refusal.number(), c),
    };
    if mem_marks::is_marked(work, p.name, c.tag) {
        read_literal::clear_cells(text, c.stored, x.stored - c.stored);
        return grammar_stepped::answer(SHAPE, c);
    }
    let event = attribute(work, p.uri, p.local, read_qname::part_of(x));
    event::store(event, events, cell);
    keep(work, c, p.name, x);
    let joins = x.joins.is_some();
    grammar_stepped::moved_on(
        c, x.next, x.stored, joins, false, c.mode, c.top, c.depth, c.tag,
    )
}

// Reads characters, which are a value of the innermost element.
pub fn known_characters(
    aligned: bool,
    stream: &[u8],
    p: ProductionRead,
    c: Core,
    cell: usize,
    n: usize,
    events: &mut [u32],
    text: &mut [u32],
    work: &mut [u32],
) -> Stepped
    requires step_pre { StepPre stream.now events.old text.old work.old c cell n }
    requires learned_pre { LearnedPre kind_ch stream.now c (seen_of p) }
    ensures { KnownPost (alignment_of aligned) stream.now events.old
        text.old work.old c cell n (seen_of p) events.new text.new
        work.new result }
{
    let read = read_values::read_value(
        aligned, stream, p.next, c.top, c.values, c.longest, c.capacity, c.stored, text, work,
    );
    let x = match read {
        Ok(x) => x,
        Err(y) => return grammar_stepped::answer(y.refusal.number(), c),
    };
    let value = read_qname::part_of(x);
    event::store(Event::Characters(value), events, cell);
    join_value(work, c, c.top, x);
    let mode = mem_state::content_after(c.mode);
    let tag = grammar_stepped::next_tag(n);
    let joins = x.joins.is_some();
    grammar_stepped::moved_on(c, x.next, x.stored, joins, false, mode, c.top, c.depth, tag)
}
