// The content of an event (EXI 4), judged string by string, and written as it was judged. Work
// memory is not written. What the functions ask and leave is in specs/Contents.antt and
// specs/Writing.antt.
#![tactic(auto)]

ghost use Rattle.std.specs.Prelude.{◌≡◌};
ghost use Rattle.read_field.specs.View.{alignment_of};
ghost use Rattle.event.specs.declared.Event.TheVariants.{StartElement, Attribute, Characters};
ghost use Rattle.event.specs.declared.Event.TheVariants.{Comment, Instruction};
ghost use Rattle.spec_exi.specs.Tables.{string_bits};
ghost use Rattle.write_field.specs.Written.{Put};
ghost use Rattle.write_content.specs.Contents.{plain_in, valued_in, content_answer, ContentPre};
ghost use Rattle.write_content.specs.Contents.{ContentPost};
ghost use Rattle.write_content.specs.Answer.{told_content};
ghost use Rattle.write_content.specs.Writing.{PutNamedPre, named_bits, PutValuedPre};
ghost use Rattle.write_content.specs.Writing.{valued_bits, PutTextPre, PutContentPre};
ghost use Rattle.write_content.specs.Writing.{contentBits};
ghost use Rattle.write_qname.specs.Premise.{part_at};

use event::{Event, Part};
use mem_state::{Core, Strings};
use mem_values::Form;
use name_rules::Role;
use refusal::Refusal;
use write_values::ValueJudged;

// The code points in the store after the content; what is to join; and of a value the partition
// that has it, with its compact identifier there.
#[derive(Clone, Copy)]
pub struct Content {
    pub stored: usize,
    pub strings: Strings,
    pub form: Form,
}

// An event without a value.
fn plain(stored: usize, strings: Strings) -> Content
    ensures { result ≡ plain_in stored strings }
{
    Content {
        stored,
        strings,
        form: Form::Absent,
    }
}

// With a value of the name in a row, which lies there.
fn with_value(s: Strings, owner: u32, p: Part, v: ValueJudged) -> Content
    ensures { result ≡ valued_in s owner p v }
{
    let strings = mem_state::with_value(s, owner, v.joins, p.place, p.size, v.hash);
    Content {
        stored: v.stored,
        strings,
        form: v.form,
    }
}

fn judge_element(
    opening: &[u32],
    text: &[u32],
    uri: Part,
    local: Part,
    c: Core,
    work: &[u32],
) -> Result<Content, Refusal>
    requires { ContentPre work.now c }
    ensures { ContentPost opening.now text.now (StartElement uri local) c
        work.now (content_answer c.stored result) }
{
    let n = write_qname::judge_name(opening, text, false, uri, local, c, work)?;
    Ok(plain(n.stored, n.strings))
}

// A name, then a value of it.
fn judge_attribute(
    opening: &[u32],
    text: &[u32],
    uri: Part,
    local: Part,
    value: Part,
    c: Core,
    work: &[u32],
) -> Result<Content, Refusal>
    requires { ContentPre work.now c }
    ensures { ContentPost opening.now text.now (Attribute uri local value) c
        work.now (content_answer c.stored result) }
{
    let n = write_qname::judge_name(opening, text, true, uri, local, c, work)?;
    let s = n.strings;
    let x = text::look_up(text, value.place, value.size);
    let v = write_values::judge_value(
        text, x, s.name_row, c.values, c.longest, c.capacity, n.stored, work,
    )?;
    Ok(with_value(s, s.name_row, value, v))
}

// A value of the innermost element.
fn judge_characters(
    opening: &[u32],
    text: &[u32],
    value: Part,
    c: Core,
    work: &[u32],
) -> Result<Content, Refusal>
    requires { ContentPre work.now c }
    ensures { ContentPost opening.now text.now (Characters value) c
        work.now (content_answer c.stored result) }
{
    let x = text::look_up(text, value.place, value.size);
    let v = write_values::judge_value(
        text, x, c.top, c.values, c.longest, c.capacity, c.stored, work,
    )?;
    Ok(with_value(mem_state::no_strings(), c.top, value, v))
}

fn judge_comment(
    opening: &[u32],
    text: &[u32],
    value: Part,
    c: Core,
    work: &[u32],
) -> Result<Content, Refusal>
    requires { ContentPre work.now c }
    ensures { ContentPost opening.now text.now (Comment value) c
        work.now (content_answer c.stored result) }
{
    let x = text::look_up(text, value.place, value.size);
    let v = write_values::judge_text(Role::Comment, x, c.stored)?;
    Ok(plain(v.stored, mem_state::no_strings()))
}

// A target, then a text.
fn judge_instruction(
    opening: &[u32],
    text: &[u32],
    target: Part,
    value: Part,
    c: Core,
    work: &[u32],
) -> Result<Content, Refusal>
    requires { ContentPre work.now c }
    ensures { ContentPost opening.now text.now (Instruction target value) c
        work.now (content_answer c.stored result) }
{
    let y = text::look_up(text, target.place, target.size);
    let t = write_values::judge_text(Role::Target, y, c.stored)?;
    let x = text::look_up(text, value.place, value.size);
    let v = write_values::judge_text(Role::Instruction, x, t.stored)?;
    Ok(plain(v.stored, mem_state::no_strings()))
}

// Judges the strings of an event, in order.
pub fn judge_content(
    opening: &[u32],
    text: &[u32],
    e: Event,
    c: Core,
    work: &[u32],
) -> Result<Content, Refusal>
    requires { ContentPre work.now c }
    ensures { ContentPost opening.now text.now e c work.now (content_answer c.stored result) }
{
    match e {
        Event::StartDocument => Ok(plain(c.stored, mem_state::no_strings())),
        Event::EndDocument => Ok(plain(c.stored, mem_state::no_strings())),
        Event::StartElement(uri, local) => judge_element(opening, text, uri, local, c, work),
        Event::Attribute(uri, local, value) => {
            judge_attribute(opening, text, uri, local, value, c, work)
        }
        Event::EndElement => Ok(plain(c.stored, mem_state::no_strings())),
        Event::Characters(value) => judge_characters(opening, text, value, c, work),
        Event::Comment(value) => judge_comment(opening, text, value, c, work),
        Event::Instruction(target, value) => {
            judge_instruction(opening, text, target, value, c, work)
        }
    }
}

// ---- the writing

// A name, where no learned production carries it.
pub fn put_name(
    aligned: bool,
    stream: &mut [u8],
    at: usize,
    carried: bool,
    uri: Part,
    local: Part,
    c: Core,
    s: Strings,
    text: &[u32],
    work: &[u32],
) -> usize
    requires { PutNamedPre stream.old at uri local c s text.now work.now }
    ensures { Put stream.old at
        (named_bits work.now carried c s (part_at text.now uri)
        (part_at text.now local) (alignment_of aligned)) stream.new result }
{
    if carried {
        return at;
    }
    write_qname::put_name(aligned, stream, at, uri, local, c, s, text, work)
}

fn put_value(
    aligned: bool,
    stream: &mut [u8],
    at: usize,
    value: Part,
    c: Core,
    x: Content,
    text: &[u32],
    work: &[u32],
) -> usize
    requires { PutValuedPre stream.old at value c (told_content x) text.now work.now }
    ensures { Put stream.old at
        (valued_bits work.now c (told_content x) (part_at text.now value)
        (alignment_of aligned)) stream.new result }
{
    let s = x.strings;
    let v = text::look_up(text, value.place, value.size);
    write_values::put_value(
        aligned, stream, at, x.form, s.owner, c.values, c.capacity, v, work,
    )
}

fn put_text(stream: &mut [u8], at: usize, value: Part, text: &[u32]) -> usize
    requires { PutTextPre stream.old at value text.now }
    ensures { Put stream.old at (string_bits 0 (part_at text.now value))
        stream.new result }
{
    let x = text::look_up(text, value.place, value.size);
    write_string::put_string(stream, at, 0, x)
}

// Writes the strings of an event as they were judged; a name that a learned production carries is
// not written.
pub fn put_content(
    aligned: bool,
    stream: &mut [u8],
    at: usize,
    e: Event,
    carried: bool,
    c: Core,
    x: Content,
    text: &[u32],
    work: &[u32],
) -> usize
    requires { PutContentPre stream.old at e c (told_content x) text.now work.now }
    ensures { Put stream.old at
        (contentBits text.now work.now e carried c (told_content x) (alignment_of aligned))
        stream.new result }
{
    match e {
        Event::StartDocument => at,
        Event::EndDocument => at,
        Event::StartElement(uri, local) => {
            let s = x.strings;
            put_name(aligned, stream, at, carried, uri, local, c, s, text, work)
        }
        Event::Attribute(uri, local, value) => {
            let s = x.strings;
            let next = put_name(aligned, stream, at, carried, uri, local, c, s, text, work);
            put_value(aligned, stream, next, value, c, x, text, work)
        }
        Event::EndElement => at,
        Event::Characters(value) => put_value(aligned, stream, at, value, c, x, text, work),
        Event::Comment(value) => put_text(stream, at, value, text),
        Event::Instruction(target, value) => {
            let next = put_text(stream, at, target, text);
            put_text(stream, next, value, text)
        }
    }
}
