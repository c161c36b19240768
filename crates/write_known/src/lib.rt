// Quick steps: an event with a value, whose production is learned (EXI 8.4.3). Its strings but the
// value are known, and nothing is learned. And the learned production of a name that its tables
// have. What the functions ask and leave is in specs/.
#![tactic(auto)]

ghost use Rattle.std.specs.Prelude.{◌<◌, ◌≡◌, suc, false, eqb};
ghost use Rattle.spec_exi.specs.Event.{AT as kind_at, CH as kind_ch};
ghost use Rattle.event.specs.declared.Event.TheVariants.{Characters};
ghost use Rattle.event_code.specs.Numbers.{in_tag};
ghost use Rattle.mem_chain.specs.Chain.{link_of};
ghost use Rattle.mem_layout.specs.Layout.{name_rows};
ghost use Rattle.mem_marks.specs.Marks.{marked_in};
ghost use Rattle.read_field.specs.View.{alignment_of};
ghost use Rattle.write_event.specs.Step.{StepPre};
ghost use Rattle.write_known.specs.Known.{PutLearnedPre, LearnedPut, KeepPre, ValueKept};
ghost use Rattle.write_known.specs.Known.{LearnedPre, KnownPost, AttributePost};
ghost use Rattle.write_qname.specs.Qnames.{NamePre};
ghost use Rattle.write_known.specs.Names.{KnownName, told_found, LearnedName};
ghost use Rattle.write_values.specs.Values.{told_value};

use event::Part;
use event_code::{AT, CH};
use grammar_stepped::Stepped;
use mem_state::Core;
use refusal::PLACE;
use sizes::MAX_STRING;
use write_values::ValueJudged;

// ---- names

// The row of a name, and that of the learned production that carries it.
#[derive(Clone, Copy)]
pub struct NameFound {
    pub name: u32,
    pub row: Option<u32>,
}

const UNKNOWN: NameFound = NameFound { name: 0, row: None };

// The row of a name that its tables have, and that may be an attribute's where attr.
fn known_name(
    opening: &[u32],
    text: &[u32],
    attr: bool,
    uri: Part,
    local: Part,
    c: Core,
    work: &[u32],
) -> Option<u32>
    requires { NamePre work.now c }
    ensures { KnownName opening.now text.now attr uri local c work.now
        (link_of result) }
{
    let y = text::look_up(text, uri.place, uri.size);
    let u = mem_names::find_uri(work, opening, text, y, c.uris)?;
    let x = text::look_up(text, local.place, local.size);
    if (MAX_STRING < x.len()) | (attr & name_rules::is_reserved(y, x)) {
        return None;
    }
    let h = mem_entries::hash(x);
    mem_names::find_name(work, opening, text, u, x, h, c.names)
}

// The learned production that fits an event of this kind and name, whose strings its tables have.
pub fn learned_name(
    opening: &[u32],
    text: &[u32],
    kind: u32,
    uri: Part,
    local: Part,
    c: Core,
    work: &[u32],
) -> NameFound
    requires { NamePre work.now c }
    ensures { LearnedName opening.now text.now kind uri local c
        work.now (told_found result) }
{
    if !(write_event::is_inside(text, uri) & write_event::is_inside(text, local)) {
        return UNKNOWN;
    }
    let Some(name) = known_name(opening, text, kind == AT, uri, local, c, work) else {
        return UNKNOWN;
    };
    let row = grammar_match::find_learned(c.mode, c.top, kind, name, c.learned, work);
    NameFound { name, row }
}

// ---- the code and a value

// Writes the code of a learned production, which is in this row.
pub fn put_learned(
    aligned: bool,
    stream: &mut [u8],
    at: usize,
    mode: u32,
    top: u32,
    row: u32,
    work: &[u32],
) -> usize
    requires { PutLearnedPre stream.old work.now at top (suc row) }
    ensures { LearnedPut (alignment_of aligned) stream.old work.now at mode top (suc row)
        stream.new result }
{
    let count = grammar_match::count_here(mode, top, work);
    let part = grammar_match::part_here(row, count, work);
    write_production::put_first(aligned, stream, at, mode, count, part)
}

// Writes a value as it was judged, and adds it where it joins.
fn keep_value(
    aligned: bool,
    stream: &mut [u8],
    at: usize,
    x: &[u32],
    p: Part,
    v: ValueJudged,
    owner: u32,
    values: u32,
    capacity: u32,
    work: &mut [u32],
) -> usize
    requires { KeepPre stream.old at x.now (told_value v) owner values work.old }
    ensures { ValueKept (alignment_of aligned) stream.old at x.now p (told_value v) owner values
        capacity work.old stream.new work.new result }
{
    let next = write_values::put_value(
        aligned, stream, at, v.form, owner, values, capacity, x, work,
    );
    mem_state::join_value(work, values, owner, v.joins, p.place, p.size, v.hash);
    next
}

// Writes characters, which are a value of the innermost element.
pub fn known_characters(
    aligned: bool,
    stream: &mut [u8],
    text: &[u32],
    value: Part,
    row: u32,
    n: usize,
    c: Core,
    work: &mut [u32],
) -> Stepped
    requires step_pre { StepPre stream.old work.old c n }
    requires learned_pre { LearnedPre kind_ch work.old c 0 (suc row) }
    ensures { KnownPost (alignment_of aligned) text.now (Characters value)
        stream.old work.old c n stream.new work.new result }
{
    if !write_event::is_inside(text, value) {
        return grammar_stepped::answer(PLACE, c);
    }
    let x = text::look_up(text, value.place, value.size);
    let judged = write_values::judge_value(
        text, x, c.top, c.values, c.longest, c.capacity, c.stored, work,
    );
    let v = match judged {
        Ok(v) => v,
        Err(k) => return grammar_stepped::answer(k.number(), c),
    };
    let next = put_learned(aligned, stream, c.at, c.mode, c.top, row, work);
    let at = keep_value(
        aligned, stream, next, x, value, v, c.top, c.values, c.capacity, work,
    );
    let mode = mem_state::content_after(c.mode);
    let tag = grammar_stepped::next_tag(n);
    grammar_stepped::moved_on(c, at, v.stored, v.joins, false, mode, c.top, c.depth, tag)
}

// Writes an attribute whose name has this row and not the start tag's mark.
pub fn known_attribute(
    aligned: bool,
    stream: &mut [u8],
    text: &[u32],
    value: Part,
    name: u32,
    row: u32,
    c: Core,
    work: &mut [u32],
) -> Stepped
    requires step_pre { StepPre stream.old work.old c 0 }
    requires learned_pre { LearnedPre kind_at work.old c name (suc row) }
    requires mode_value { c.mode ≡ in_tag }
    requires name_lt_name_rows { name < name_rows }
    requires name_value { marked_in work.old c.tag name ≡ false }
    ensures { AttributePost (alignment_of aligned) text.now value name stream.old
        work.old c stream.new work.new result }
{
    if !write_event::is_inside(text, value) {
        return grammar_stepped::answer(PLACE, c);
    }
    let x = text::look_up(text, value.place, value.size);
    let judged = write_values::judge_value(
        text, x, name, c.values, c.longest, c.capacity, c.stored, work,
    );
    let v = match judged {
        Ok(v) => v,
        Err(k) => return grammar_stepped::answer(k.number(), c),
    };
    let next = put_learned(aligned, stream, c.at, c.mode, c.top, row, work);
    let at = keep_value(
        aligned, stream, next, x, value, v, name, c.values, c.capacity, work,
    );
    mem_marks::mark(work, name, c.tag);
    grammar_stepped::moved_on(
        c, at, v.stored, v.joins, false, c.mode, c.top, c.depth, c.tag,
    )
}
