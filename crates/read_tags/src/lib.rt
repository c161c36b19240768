// Quick steps: an event without a value that teaches nothing, as are elements by learned
// productions, end tags in an element's content, and start and end of the document. What the
// functions ask and leave is in specs/Tags.antt.
#![tactic(auto)]

ghost use Rattle.std.specs.Prelude.{◌+◌, ◌≤◌, ◌<◌, ◌≡◌, Bool, true, false, length};
ghost use Rattle.spec_exi.specs.Sizes.{cells_per_event, max_events};
ghost use Rattle.spec_exi.specs.Event.{SD as kind_sd, ED as kind_ed, SE as kind_se, EE as kind_ee};
ghost use Rattle.event.specs.declared.Event.TheVariants.{StartElement};
ghost use Rattle.event_code.specs.Numbers.{in_element};
ghost use Rattle.mem_layout.specs.Layout.{work_cells};
ghost use Rattle.mem_names.specs.Uris.{UriRowPre};
ghost use Rattle.mem_names.specs.Names.{NameRowPre};
ghost use Rattle.mem_state.specs.Holds.{Bounded};
ghost use Rattle.read_production.specs.View.{seen_of};
ghost use Rattle.read_known.specs.Known.{uri_part, local_part};
ghost use Rattle.read_tags.specs.Tags.{has_room, TagPre, Stored, PlainPost, TagPost};

use event::Event;
use event_code::{EE, IN_TAG, IS_OVER, SD};
use grammar_stepped::Stepped;
use mem_state::Core;
use read_production::ProductionRead;
use refusal::{LIMIT, LOOSE};
use sizes::{MAX_GRAMMARS, MAX_OPEN};

// ---- an element

// Whether open elements and element grammars have room for an element more.
fn has_room(depth: usize, grammars: u32, enters: bool) -> bool
    ensures { result ≡ has_room depth grammars enters }
{
    if MAX_OPEN <= depth {
        return false;
    }
    !(enters & (MAX_GRAMMARS <= grammars as usize))
}

// An element by the production that carries its name.
fn element(work: &[u32], uri: u32, local: u32) -> Event
    requires uri_row_pre { UriRowPre work.now uri }
    requires name_row_pre { NameRowPre work.now local }
    ensures { result
        ≡ StartElement (uri_part work.now uri) (local_part work.now local) }
{
    let u = read_known::uri_part(work, uri);
    let l = read_known::local_part(work, local);
    Event::StartElement(u, l)
}

// A start element whose name is known.
pub fn known_element(
    p: ProductionRead,
    c: Core,
    cell: usize,
    n: usize,
    events: &mut [u32],
    work: &mut [u32],
) -> Stepped
    requires tag_pre { TagPre kind_se events.old c cell n (seen_of p) }
    requires work_cells_in_bounds { work_cells ≤ length work.old }
    requires learned_value { p.learned ≡ true }
    ensures { (fragment : Bool) → TagPost fragment events.old work.old c cell n (seen_of p)
        events.new work.new result }
{
    let enters = !mem_learned::has_grammar(work, p.name);
    if !has_room(c.depth, c.grammars, enters) {
        return grammar_stepped::answer(LIMIT, c);
    }
    let event = element(work, p.uri, p.local);
    event::store(event, events, cell);
    mem_state::enter(work, enters, p.name);
    let tag = grammar_stepped::next_tag(n);
    grammar_stepped::moved_on(
        c,
        p.next,
        c.stored,
        false,
        enters,
        IN_TAG,
        p.name,
        c.depth + 1,
        tag,
    )
}

// ---- an event without strings

// Stores it; the position, the state and the open elements after it are these.
fn bare(
    event: Event,
    at: usize,
    mode: u32,
    depth: usize,
    c: Core,
    cell: usize,
    n: usize,
    events: &mut [u32],
) -> Stepped
    requires bounded { Bounded c }
    requires cells_per_event_in_bounds { cell + cells_per_event ≤ length events.old }
    requires n_lt_max_events { n < max_events }
    ensures { Stored event at mode depth events.old c cell n events.new result }
{
    event::store(event, events, cell);
    let tag = grammar_stepped::next_tag(n);
    grammar_stepped::moved_on(c, at, c.stored, false, false, mode, c.top, depth, tag)
}

// An end tag, in a fragment or not.
pub fn known_end(
    fragment: bool,
    p: ProductionRead,
    c: Core,
    cell: usize,
    n: usize,
    events: &mut [u32],
) -> Stepped
    requires { TagPre kind_ee events.old c cell n (seen_of p) }
    ensures { PlainPost fragment events.old c cell n (seen_of p) events.new result }
{
    let mode = mem_state::mode_after(fragment, EE, c.mode, c.depth);
    bare(
        Event::EndElement,
        p.next,
        mode,
        c.depth - 1,
        c,
        cell,
        n,
        events,
    )
}

// The end tag in an element's content, by a production that is not learned.
pub fn end_tag(
    fragment: bool,
    p: ProductionRead,
    c: Core,
    cell: usize,
    n: usize,
    events: &mut [u32],
    work: &[u32],
) -> Stepped
    requires tag_pre { TagPre kind_ee events.old c cell n (seen_of p) }
    requires work_cells_in_bounds { work_cells ≤ length work.now }
    requires learned_value { p.learned ≡ false }
    requires mode_value { c.mode ≡ in_element }
    ensures { TagPost fragment events.old work.now c cell n (seen_of p) events.new
        work.now result }
{
    if let Some(_) = grammar_match::find_learned(c.mode, c.top, EE, 0, c.learned, work) {
        return grammar_stepped::answer(LOOSE, c);
    }
    known_end(fragment, p, c, cell, n, events)
}

// The start of a document or a fragment.
pub fn start_document(
    fragment: bool,
    p: ProductionRead,
    c: Core,
    cell: usize,
    n: usize,
    events: &mut [u32],
) -> Stepped
    requires { TagPre kind_sd events.old c cell n (seen_of p) }
    ensures { PlainPost fragment events.old c cell n (seen_of p) events.new result }
{
    let mode = mem_state::mode_after(fragment, SD, c.mode, c.depth);
    bare(
        Event::StartDocument,
        p.next,
        mode,
        c.depth,
        c,
        cell,
        n,
        events,
    )
}

// The end of a document or a fragment.
pub fn end_document(
    p: ProductionRead,
    c: Core,
    cell: usize,
    n: usize,
    events: &mut [u32],
) -> Stepped
    requires { TagPre kind_ed events.old c cell n (seen_of p) }
    ensures { (fragment : Bool) → PlainPost fragment events.old c cell n (seen_of p)
        events.new result }
{
    bare(
        Event::EndDocument,
        p.next,
        IS_OVER,
        c.depth,
        c,
        cell,
        n,
        events,
    )
}
