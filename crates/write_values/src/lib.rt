// Values (EXI 7.3.3) and strings by no table (EXI 7.1.10), judged; and values, written. Work memory
// is not written: a value that joins is added once the whole event is accepted. What the functions
// ask and leave is in specs/Values.antt and specs/Texts.antt.
#![tactic(auto)]

ghost use Rattle.std.specs.Prelude.{◌+◌};
ghost use Rattle.name_rules.specs.Texts.{role_in};
ghost use Rattle.read_field.specs.View.{alignment_of};
ghost use Rattle.write_field.specs.Written.{Put};
ghost use Rattle.write_partition.specs.Judged.{string_answer};
ghost use Rattle.write_values.specs.Texts.{TextPre, TextPost};
ghost use Rattle.write_values.specs.Values.{partition_in, id_in, value_answer};
ghost use Rattle.write_values.specs.Values.{NewValuePre, NewValuePost, FormPre, FormPost};
ghost use Rattle.write_values.specs.Values.{ValuePre, ValuePost};
ghost use Rattle.write_values.specs.Values.{value_bits, PutValuePre};

use mem_values::Form;
use name_rules::Role;
use refusal::Refusal;
use sizes::{MAX_STORE, MAX_STRING, MAX_VALUES};
use write_partition::StringJudged;

// ---- strings by no table

// Judges a target, a comment or an instruction's text, by its role.
pub fn judge_text(role: Role, x: &[u32], stored: usize) -> Result<StringJudged, Refusal>
    requires { TextPre stored }
    ensures { TextPost (role_in role) x.now stored (string_answer stored result) }
{
    if MAX_STRING < x.len() {
        return Err(Refusal::Limit);
    }
    write_partition::literal_fault(x, stored)?;
    name_rules::judge_text(role, x)?;
    Ok(StringJudged {
        row: 0,
        stored: stored + x.len(),
        joins: false,
        hash: 0,
    })
}

// ---- values

// The partition that has a value, with its compact identifier there; the code points in the store
// after it; and whether it is to join, with the hash of its text.
#[derive(Clone, Copy)]
pub struct ValueJudged {
    pub form: Form,
    pub stored: usize,
    pub joins: bool,
    pub hash: u32,
}

// A value that no partition has; whether it has only Chars is known. One that the settings keep out
// of the tables joins none, and under a capacity one that joins needs no free row.
fn judge_new_value(
    x: &[u32],
    chars: bool,
    values: u32,
    longest: u32,
    capacity: u32,
    stored: usize,
    h: u32,
) -> Result<ValueJudged, Refusal>
    requires { NewValuePre x.now chars stored }
    ensures { NewValuePost x.now values longest capacity stored h (value_answer stored result) }
{
    if MAX_STORE - stored < x.len() {
        return Err(Refusal::Limit);
    }
    if !chars {
        return Err(Refusal::Character);
    }
    let stored = stored + x.len();
    if !mem_values::joins(x.len(), longest, capacity) {
        return Ok(ValueJudged {
            form: Form::Absent,
            stored,
            joins: false,
            hash: 0,
        });
    }
    if (capacity == 0) & (MAX_VALUES <= values as usize) {
        return Err(Refusal::Limit);
    }
    Ok(ValueJudged {
        form: Form::Absent,
        stored,
        joins: true,
        hash: h,
    })
}

// The form of a value, by one search among those that are not replaced.
fn form_among(
    text: &[u32],
    x: &[u32],
    h: u32,
    owner: u32,
    values: u32,
    capacity: u32,
    work: &[u32],
) -> Form
    requires { FormPre work.now values }
    ensures { FormPost work.now text.now x.now h values capacity owner
        result }
{
    let low = mem_values::replaced(values, capacity);
    let newer = mem_values::newest_numbers(values, capacity);
    mem_values::form_of(work, text, x, h, values, low, newer, owner)
}

// Judges a value of the name in a row: one search by text answers whether it is the name's own.
pub fn judge_value(
    text: &[u32],
    x: &[u32],
    owner: u32,
    values: u32,
    longest: u32,
    capacity: u32,
    stored: usize,
    work: &[u32],
) -> Result<ValueJudged, Refusal>
    requires { ValuePre work.now owner values capacity stored }
    ensures { ValuePost text.now x.now owner values longest capacity stored
        work.now (value_answer stored result) }
{
    if MAX_STRING < x.len() {
        return Err(Refusal::Limit);
    }
    let w = mem_entries::weigh(x);
    let form = form_among(text, x, w.hash, owner, values, capacity, work);
    if let Form::Absent = form {
        return judge_new_value(x, w.chars, values, longest, capacity, stored, w.hash);
    }
    Ok(ValueJudged {
        form,
        stored,
        joins: false,
        hash: 0,
    })
}

// Writes a value: a hit among the name's own, those replaced counted, or among all that are not
// replaced; or the String, its length raised by 2.
pub fn put_value(
    aligned: bool,
    stream: &mut [u8],
    at: usize,
    form: Form,
    owner: u32,
    values: u32,
    capacity: u32,
    x: &[u32],
    work: &[u32],
) -> usize
    requires { PutValuePre stream.old at (partition_in form) owner values x.now work.now }
    ensures { Put stream.old at
        (value_bits work.now (partition_in form) (id_in form) owner values capacity x.now
        (alignment_of aligned)) stream.new result }
{
    match form {
        Form::Local(id) => {
            let among = mem_values::count_local(work, owner);
            write_partition::put_hit(aligned, stream, at, 0, among, id)
        }
        Form::Global(id) => {
            let among = values - mem_values::replaced(values, capacity);
            write_partition::put_hit(aligned, stream, at, 1, among, id)
        }
        Form::Absent => write_string::put_string(stream, at, 2, x),
    }
}
