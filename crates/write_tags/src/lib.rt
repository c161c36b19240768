// Quick steps: an event without a value that teaches nothing, as are elements whose production is
// learned and end tags in an element's content. Work memory is not written. What the functions ask
// and leave is in specs/Tags.antt.
#![tactic(auto)]

ghost use Rattle.std.specs.Prelude.{◌<◌, ◌≡◌, suc, true};
ghost use Rattle.spec_exi.specs.Sizes.{max_events, max_open};
ghost use Rattle.spec_exi.specs.Event.{SE as kind_se, EE as kind_ee};
ghost use Rattle.event.specs.declared.Event.TheVariants.{StartDocument, EndDocument};
ghost use Rattle.event.specs.declared.Event.TheVariants.{EndElement};
ghost use Rattle.event_code.specs.Numbers.{in_element};
ghost use Rattle.mem_learned.specs.Grammars.{flag_in};
ghost use Rattle.mem_state.specs.Holds.{Bounded};
ghost use Rattle.read_field.specs.View.{alignment_of};
ghost use Rattle.settings.specs.Meant.{settings_from};
ghost use Rattle.grammar_match.specs.Found.{FoundHere};
ghost use Rattle.grammar_stepped.specs.Stepped.{stepped_as};
ghost use Rattle.write_event.specs.Step.{StepPre};
ghost use Rattle.write_known.specs.Known.{LearnedPre};
ghost use Rattle.write_tags.specs.Tags.{ended_at, TagPost, ElementPost};
ghost use Rattle.write_tags.specs.Tags.{OuterPre, OuterPost, DocumentPost};

use event_code::{ED, EE, IN_TAG, SD};
use grammar_codes::Place;
use grammar_stepped::Stepped;
use mem_state::Core;
use settings::Settings;
use write_production::Code;

// ---- an element

// Writes a start element whose name has this row and a grammar, where one more may be open.
pub fn known_element(
    aligned: bool,
    stream: &mut [u8],
    name: u32,
    row: u32,
    n: usize,
    c: Core,
    work: &[u32],
) -> Stepped
    requires step_pre { StepPre stream.old work.now c n }
    requires learned_pre { LearnedPre kind_se work.now c name (suc row) }
    requires name_value { flag_in work.now name ≡ true }
    requires depth_lt_max_open { c.depth < max_open }
    ensures { ElementPost (alignment_of aligned) name stream.old work.now c n
        stream.new result }
{
    let at = write_known::put_learned(aligned, stream, c.at, c.mode, c.top, row, work);
    let tag = grammar_stepped::next_tag(n);
    grammar_stepped::moved_on(
        c,
        at,
        c.stored,
        false,
        false,
        IN_TAG,
        name,
        c.depth + 1,
        tag,
    )
}

// ---- an end tag

// The answer after it.
fn ended(fragment: bool, at: usize, n: usize, c: Core) -> Stepped
    requires bounded { Bounded c }
    requires depth_nonzero { 0 < c.depth }
    requires n_lt_max_events { n < max_events }
    ensures { result ≡ stepped_as 0 (ended_at fragment c at n) }
{
    let mode = mem_state::mode_after(fragment, EE, c.mode, c.depth);
    let tag = grammar_stepped::next_tag(n);
    grammar_stepped::moved_on(c, at, c.stored, false, false, mode, c.top, c.depth - 1, tag)
}

// Writes an end tag whose production is learned, in this row.
pub fn known_end(
    aligned: bool,
    fragment: bool,
    stream: &mut [u8],
    row: u32,
    n: usize,
    c: Core,
    work: &[u32],
) -> Stepped
    requires step_pre { StepPre stream.old work.now c n }
    requires learned_pre { LearnedPre kind_ee work.now c 0 (suc row) }
    ensures { TagPost (alignment_of aligned) fragment EndElement stream.old
        work.now c n stream.new result }
{
    let at = write_known::put_learned(aligned, stream, c.at, c.mode, c.top, row, work);
    ended(fragment, at, n, c)
}

// Writes the end tag in an element's content, which is not learned there.
pub fn end_tag(
    aligned: bool,
    fragment: bool,
    stream: &mut [u8],
    n: usize,
    c: Core,
    work: &[u32],
) -> Stepped
    requires step_pre { StepPre stream.old work.now c n }
    requires mode_value { c.mode ≡ in_element }
    requires found_here { FoundHere work.now c.mode c.top 4 0 c.learned 0 }
    ensures { TagPost (alignment_of aligned) fragment EndElement stream.old
        work.now c n stream.new result }
{
    let count = grammar_match::count_here(c.mode, c.top, work);
    let at = write_production::put_first(aligned, stream, c.at, c.mode, count, count);
    ended(fragment, at, n, c)
}

// ---- outside the root element

// Writes an event without strings that is the first of its state.
fn outer(o: Settings, stream: &mut [u8], kind: u32, n: usize, c: Core, work: &[u32]) -> Stepped
    requires step_pre { StepPre stream.old work.now c n }
    requires outer_pre { OuterPre (settings_from o) c kind }
    ensures { OuterPost (settings_from o) kind stream.old work.now c n
        stream.new result }
{
    let count = grammar_match::count_here(c.mode, c.top, work);
    let place = Place { level: 0, value: 0 };
    let code = Code {
        learned: false,
        count,
        part: 0,
    };
    let at = write_production::put_code(o, stream, c.at, c.mode, place, code);
    let mode = mem_state::mode_after(o.fragment, kind, c.mode, c.depth);
    let tag = grammar_stepped::next_tag(n);
    grammar_stepped::moved_on(c, at, c.stored, false, false, mode, c.top, c.depth, tag)
}

// Writes the start of a document or a fragment.
pub fn start_document(o: Settings, stream: &mut [u8], n: usize, c: Core, work: &[u32]) -> Stepped
    requires step_pre { StepPre stream.old work.now c n }
    requires mode_value { c.mode ≡ 0 }
    requires found_here { FoundHere work.now c.mode c.top 0 0 c.learned 0 }
    ensures { DocumentPost (settings_from o) StartDocument stream.old work.now c n
        stream.new result }
{
    outer(o, stream, SD, n, c, work)
}

// Writes the document's end.
pub fn end_document(o: Settings, stream: &mut [u8], n: usize, c: Core, work: &[u32]) -> Stepped
    requires step_pre { StepPre stream.old work.now c n }
    requires mode_value { c.mode ≡ 2 }
    requires found_here { FoundHere work.now c.mode c.top 1 0 c.learned 0 }
    ensures { DocumentPost (settings_from o) EndDocument stream.old work.now c n
        stream.new result }
{
    outer(o, stream, ED, n, c, work)
}
