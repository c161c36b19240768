// One event of a list, written: judged whole, by its kind, its places, its strings, its start tag
// (P3) and what it leaves in the grammars; then its bits; and then the one place where its rows
// join memory. A refused event has written no octet and no cell. What the functions ask and leave
// is in specs/.
#![tactic(auto)]

ghost use Rattle.std.specs.Prelude.{◌≡◌};
ghost use Rattle.text.specs.Text.{inside};
ghost use Rattle.spec_exi.specs.Event.{kind_of, strings_of};
ghost use Rattle.spec_exi.specs.Grammar.{kind_number};
ghost use Rattle.spec_exi.specs.Lists.{every};
ghost use Rattle.settings.specs.Meant.{settings_from};
ghost use Rattle.event.specs.Cells.{meaning, as_span};
ghost use Rattle.write_field.specs.Written.{Put};
ghost use Rattle.write_content.specs.Answer.{told_content};
ghost use Rattle.write_event.specs.Judge.{CodeHerePre, CodeHere, GrammarsPre};
ghost use Rattle.write_event.specs.Judge.{told_event, event_answer};
ghost use Rattle.write_event.specs.Judge.{GrammarsPost, JudgePre, JudgePost, PutEventPre};
ghost use Rattle.write_event.specs.Judge.{judgedBits, CommitPre, CommitPost};
ghost use Rattle.write_event.specs.Step.{StepPre, StepPost};

use event::{Event, Part};
use event_code::{AT, CH, CM, ED, EE, PI, SD, SE};
use grammar_codes::Place;
use grammar_stepped::Stepped;
use mem_state::{Core, Growth};
use refusal::Refusal;
use settings::Settings;
use write_content::Content;
use write_production::Code;

// Where the event's kind stands in the table, its code, its content and what it leaves in the
// grammars.
#[derive(Clone, Copy)]
struct EventJudged {
    place: Place,
    code: Code,
    content: Content,
    growth: Growth,
}

// ---- the tests

// The number of an event's kind.
fn kind_of(e: Event) -> u32
    ensures { result ≡ kind_number (kind_of (meaning e)) }
{
    match e {
        Event::StartDocument => SD,
        Event::EndDocument => ED,
        Event::StartElement(uri, local) => SE,
        Event::Attribute(uri, local, value) => AT,
        Event::EndElement => EE,
        Event::Characters(value) => CH,
        Event::Comment(value) => CM,
        Event::Instruction(target, value) => PI,
    }
}

// Whether a string of the list lies inside its store.
pub fn is_inside(text: &[u32], x: Part) -> bool
    ensures { result ≡ inside text.now (as_span x) }
{
    text::is_inside(text, x.place, x.size)
}

// Whether every string of the event lies inside the store.
fn places_fit(text: &[u32], e: Event) -> bool
    ensures { result ≡ every (inside text.now) (strings_of (meaning e)) }
{
    match e {
        Event::StartDocument => true,
        Event::EndDocument => true,
        Event::StartElement(uri, local) => is_inside(text, uri) & is_inside(text, local),
        Event::Attribute(uri, local, value) => {
            is_inside(text, uri) & is_inside(text, local) & is_inside(text, value)
        }
        Event::EndElement => true,
        Event::Characters(value) => is_inside(text, value),
        Event::Comment(value) => is_inside(text, value),
        Event::Instruction(target, value) => is_inside(text, target) & is_inside(text, value),
    }
}

// The code of an event of this kind, whose name has this row, 0 where it has none: a learned
// production's where one fits.
pub fn code_here(c: Core, kind: u32, name: u32, work: &[u32]) -> Code
    requires { CodeHerePre work.now c name }
    ensures { CodeHere work.now c kind name result }
{
    let count = grammar_match::count_here(c.mode, c.top, work);
    let Some(row) = grammar_match::find_learned(c.mode, c.top, kind, name, c.learned, work) else {
        return Code {
            learned: false,
            count,
            part: 0,
        };
    };
    let part = grammar_match::part_here(row, count, work);
    Code {
        learned: true,
        count,
        part,
    }
}

// Judges an event after its content: the code that it has, equal attributes (P3), and the sizes of
// the grammars.
fn judge_grammars(
    c: Core,
    kind: u32,
    place: Place,
    content: Content,
    work: &[u32],
) -> Result<EventJudged, Refusal>
    requires { GrammarsPre work.now c (told_content content) }
    ensures { GrammarsPost work.now c kind place (told_content content) (event_answer c result) }
{
    let s = content.strings;
    let code = code_here(c, kind, s.name_row, work);
    let growth = grammar_update::growth(c, kind, code.learned, s, work);
    if !grammar_update::allows(c.tag, kind, s.name_row, work) {
        return Err(Refusal::Shape);
    }
    if !grammar_update::fits(c, growth) {
        return Err(Refusal::Limit);
    }
    Ok(EventJudged {
        place,
        code,
        content,
        growth,
    })
}

// Judges an event; nothing is written.
fn judge_event(
    o: Settings,
    opening: &[u32],
    text: &[u32],
    e: Event,
    c: Core,
    work: &[u32],
) -> Result<EventJudged, Refusal>
    requires { JudgePre work.now c }
    ensures { JudgePost (settings_from o) opening.now text.now e
        work.now c (event_answer c result) }
{
    let kind = kind_of(e);
    let Some(place) = grammar_codes::place_of(c.mode, kind, o.comments, o.instructions) else {
        return Err(Refusal::Shape);
    };
    if !places_fit(text, e) {
        return Err(Refusal::Place);
    }
    let x = write_content::judge_content(opening, text, e, c, work)?;
    judge_grammars(c, kind, place, x, work)
}

// ---- the bits

// Writes the code and the content of an event as they were judged.
fn put_event(
    o: Settings,
    stream: &mut [u8],
    text: &[u32],
    e: Event,
    c: Core,
    j: EventJudged,
    work: &[u32],
) -> usize
    requires { PutEventPre (settings_from o) stream.old text.now e work.now c (told_event j) }
    ensures { Put stream.old c.at
        (judgedBits (settings_from o) text.now e work.now c (told_event j))
        stream.new result }
{
    let place = j.place;
    let code = j.code;
    let x = j.content;
    let next = write_production::put_code(o, stream, c.at, c.mode, place, code);
    write_content::put_content(o.aligned, stream, next, e, code.learned, c, x, text, work)
}

// ---- the rows

// Adds what an event leaves to memory, and says the numbers after it; n events have come before it.
fn commit(fragment: bool, work: &mut [u32], c: Core, at: usize, j: EventJudged, n: usize) -> Core
    requires { CommitPre work.old c (told_event j) n }
    ensures { CommitPost fragment work.old c at (told_event j) n work.new result }
{
    let x = j.content;
    let s = x.strings;
    let g = j.growth;
    mem_state::join_strings(work, c, s);
    mem_state::grow(work, c, g);
    grammar_update::after(fragment, c, at, x.stored, s, g, n)
}

// Writes one event, before which n have come, after the core's position.
pub fn write_event(
    o: Settings,
    stream: &mut [u8],
    opening: &[u32],
    text: &[u32],
    e: Event,
    n: usize,
    c: Core,
    work: &mut [u32],
) -> Stepped
    requires { StepPre stream.old work.old c n }
    ensures { StepPost (settings_from o) opening.now text.now (meaning e)
        stream.old work.old c n stream.new work.new result }
{
    let j = match judge_event(o, opening, text, e, c, work) {
        Ok(j) => j,
        Err(k) => return grammar_stepped::answer(k.number(), c),
    };
    let at = put_event(o, stream, text, e, c, j, work);
    let core = commit(o.fragment, work, c, at, j, n);
    grammar_stepped::answer(0, core)
}
