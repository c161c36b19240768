// Quick steps: an event by a production that is not learned, which it teaches (EXI 8.4.3). Here are
// its parts, and the events without a name: characters and the end tag in a start tag. What the
// functions ask and leave is in specs/First.antt.
#![tactic(auto)]

ghost use Rattle.std.specs.Prelude.{◌-◌, ◌≤◌, ◌≡◌, Bool, false, length};
ghost use Rattle.settings.specs.Meant.{settings_from};
ghost use Rattle.spec_exi.specs.Event.{CH as kind_ch, EE as kind_ee};
ghost use Rattle.spec_exi.specs.Grammar.{kind_number};
ghost use Rattle.event.specs.declared.Event.TheVariants.{Characters};
ghost use Rattle.mem_layout.specs.Layout.{work_cells};
ghost use Rattle.mem_state.specs.Holds.{Bounded};
ghost use Rattle.mem_state.specs.Joining.{no_strings, valued_strings};
ghost use Rattle.grammar_update.specs.Growth.{GrowthPre, growth_of};
ghost use Rattle.grammar_stepped.specs.Stepped.{stepped_as};
ghost use Rattle.refusal.specs.Numbers.{number_in};
ghost use Rattle.read_production.specs.View.{seen_of};
ghost use Rattle.read_partition.specs.View.{read_as};
ghost use Rattle.read_qname.specs.Qnames.{joining_of, part_of};
ghost use Rattle.read_event.specs.Step.{StepPre, StepPost};
ghost use Rattle.read_tags.specs.Tags.{TagPre, TagPost};
ghost use Rattle.read_first.specs.First.{judged_in, row_strings, JudgePre, Judgement, DroppedPost};
ghost use Rattle.read_first.specs.First.{turnedBy, FirstPre, AddPre, Added};

use event::Event;
use event_code::{CH, EE};
use grammar_stepped::Stepped;
use mem_state::{Core, Growth};
use read_partition::StringRead;
use read_production::ProductionRead;
use refusal::Refusal;
use settings::Settings;

// ---- the parts of such a step

// What an event of this kind, whose URI and name have these rows, leaves in the grammars.
pub fn growth(c: Core, kind: u32, uri: u32, name: u32, work: &[u32]) -> Growth
    requires { GrowthPre work.now c (row_strings uri name) }
    ensures { result ≡ growth_of work.now c kind false (row_strings uri name) }
{
    let mut s = mem_state::no_strings();
    s.uri_row = uri;
    s.name_row = name;
    grammar_update::growth(c, kind, false, s, work)
}

// Refuses a second attribute of one name, then what is LOOSE, then what passes a size.
pub fn judge(c: Core, g: Growth, work: &[u32]) -> Result<(), Refusal>
    requires { JudgePre work.now c g }
    ensures { Judgement work.now c g (judged_in result) }
{
    if !grammar_update::allows(c.tag, g.kind, g.name, work) {
        return Err(Refusal::Shape);
    }
    if let Some(_) = grammar_match::find_learned(c.mode, c.top, g.kind, g.name, c.learned, work) {
        return Err(Refusal::Loose);
    }
    if !grammar_update::fits(c, g) {
        return Err(Refusal::Limit);
    }
    Ok(())
}

// A refusal: the text from the store's end to this cell is cleared.
pub fn dropped(refusal: Refusal, c: Core, stored: usize, text: &mut [u32]) -> Stepped
    requires stored_le_stored { c.stored ≤ stored }
    requires stored_in_bounds { stored ≤ length text.old }
    ensures { DroppedPost (number_in refusal) c stored text.old text.new result }
{
    read_literal::clear_cells(text, c.stored, stored - c.stored);
    grammar_stepped::answer(refusal.number(), c)
}

// The answer: which strings join, what is left in the grammars, and the state after the event.
pub fn moved(
    c: Core,
    at: usize,
    stored: usize,
    uri: bool,
    name: bool,
    value: bool,
    g: Growth,
    mode: u32,
    top: u32,
    depth: usize,
    tag: u32,
) -> Stepped
    requires { Bounded c }
    ensures { result ≡ stepped_as 0 (turnedBy c at stored uri name value g mode top depth tag) }
{
    Stepped {
        number: 0,
        at,
        stored,
        uris: c.uris + mem_state::one(uri),
        names: c.names + mem_state::one(name),
        values: c.values + mem_state::one(value),
        learned: c.learned + mem_state::one(g.teaches),
        grammars: c.grammars + mem_state::one(g.enters),
        mode,
        top,
        depth,
        tag,
        longest: c.longest,
        capacity: c.capacity,
    }
}

// ---- characters

fn add_characters(
    x: StringRead,
    g: Growth,
    c: Core,
    cell: usize,
    n: usize,
    events: &mut [u32],
    work: &mut [u32],
) -> Stepped
    requires kind_value { g.kind ≡ kind_number kind_ch }
    requires add_pre { AddPre events.old work.old
        (valued_strings no_strings c.top (joining_of (read_as x))) g c cell n }
    ensures { (fragment : Bool) → Added fragment (Characters (part_of (read_as x)))
        (valued_strings no_strings c.top (joining_of (read_as x))) g x.next x.stored
        events.old work.old c cell n events.new
        work.new result }
{
    let value = read_qname::part_of(x);
    event::store(Event::Characters(value), events, cell);
    read_known::join_value(work, c, c.top, x);
    mem_state::grow(work, c, g);
    let mode = mem_state::content_after(c.mode);
    let tag = grammar_stepped::next_tag(n);
    moved(
        c,
        x.next,
        x.stored,
        false,
        false,
        x.joins.is_some(),
        g,
        mode,
        c.top,
        c.depth,
        tag,
    )
}

// Reads characters, which are a value of the innermost element.
pub fn first_characters(
    o: Settings,
    stream: &[u8],
    p: ProductionRead,
    c: Core,
    cell: usize,
    n: usize,
    events: &mut [u32],
    text: &mut [u32],
    work: &mut [u32],
) -> Stepped
    requires step_pre { StepPre stream.now events.old text.old work.old c cell n }
    requires first_pre { FirstPre kind_ch (settings_from o) stream.now work.old c (seen_of p) }
    ensures { StepPost (settings_from o) stream.now events.old text.old
        work.old c cell n events.new text.new work.new
        result }
{
    let read = read_values::read_value(
        o.aligned, stream, p.next, c.top, c.values, c.longest, c.capacity, c.stored, text, work,
    );
    let x = match read {
        Ok(x) => x,
        Err(y) => return dropped(y.refusal, c, y.stored, text),
    };
    let g = growth(c, CH, 0, 0, work);
    if let Err(refusal) = judge(c, g, work) {
        return dropped(refusal, c, x.stored, text);
    }
    add_characters(x, g, c, cell, n, events, work)
}

// ---- the end tag

// Reads the end tag of an element whose start tag is open, in a fragment or not.
pub fn first_end(
    fragment: bool,
    p: ProductionRead,
    c: Core,
    cell: usize,
    n: usize,
    events: &mut [u32],
    work: &mut [u32],
) -> Stepped
    requires tag_pre { TagPre kind_ee events.old c cell n (seen_of p) }
    requires work_cells_in_bounds { work_cells ≤ length work.old }
    requires learned_value { p.learned ≡ false }
    ensures { TagPost fragment events.old work.old c cell n (seen_of p) events.new
        work.new result }
{
    let g = growth(c, EE, 0, 0, work);
    if let Err(refusal) = judge(c, g, work) {
        return grammar_stepped::answer(refusal.number(), c);
    }
    event::store(Event::EndElement, events, cell);
    mem_state::grow(work, c, g);
    let mode = mem_state::mode_after(fragment, EE, c.mode, c.depth);
    let tag = grammar_stepped::next_tag(n);
    moved(
        c,
        p.next,
        c.stored,
        false,
        false,
        false,
        g,
        mode,
        c.top,
        c.depth - 1,
        tag,
    )
}
