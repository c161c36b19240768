// Values, read by the values of their name and by all values (EXI 7.3.3), and strings by no table.
// Work memory is not written: a value that is a literal is judged here, and joins its table once
// the whole event is accepted. What the functions ask and leave is in specs/.
#![tactic(auto)]

ghost use Rattle.std.specs.Prelude.{◌≡◌, false, List, ℕ, ◌≤◌, Result};
ghost use Rattle.spec_fields.specs.Field.{Alignment};
ghost use Rattle.text.specs.Text.{part};
ghost use Rattle.spec_exi.specs.Settings.{bound_of};
ghost use Rattle.spec_exi.specs.Sizes.{max_store};
ghost use Rattle.spec_exi.specs.Tables.{replaced};
ghost use Rattle.name_rules.specs.Texts.{role_in, fault_of, fault_in};
ghost use Rattle.mem_chain.specs.Chain.{link_of};
ghost use Rattle.mem_values.specs.Hold.{FoundText};
ghost use Rattle.read_field.specs.View.{alignment_of};
ghost use Rattle.read_literal.specs.Literal.{LiteralPre};
ghost use Rattle.read_partition.specs.View.{string_in};
ghost use Rattle.read_partition.specs.Strings.{as_string, as_literal};
ghost use Rattle.read_values.specs.Values.{HitPre, NewPre, ValuePre, SoughtPre, as_value};
ghost use Rattle.read_values.specs.Values.{as_own, as_any, as_new, ValuePost, JoinsWithin};
ghost use Rattle.read_values.specs.Texts.{TextPost};

use name_rules::Role;
use read_literal::Stopped;
use read_partition::{StringRead, dropped, found, laid, refused};
use refusal::Refusal;
use sizes::MAX_VALUES;

// ---- values

// A value as a hit among the name's own.
fn own_value(
    aligned: bool,
    stream: &[u8],
    at: usize,
    owner: u32,
    values: u32,
    capacity: u32,
    stored: usize,
    work: &[u32],
) -> Result<StringRead, Stopped>
    requires { HitPre stream.now at stored work.now values owner }
    ensures by_index { (text : List ℕ) (longest : ℕ) → ValuePost (alignment_of aligned) as_own
        stream.now at text stored work.now values longest capacity owner text
        (string_in result) }
    ensures by_index_2 { (text : List ℕ) → JoinsWithin values text (string_in result) }
{
    let among = mem_values::count_local(work, owner);
    let field = read_field::choice(aligned, stream, at, among).map_err(|refusal| refused(
        refusal, at, stored,
    ))?;
    let low = mem_values::replaced(values, capacity);
    let Some(row) = mem_values::nth_local(work, owner, field.value, values, low) else {
        return Err(refused(Refusal::Reference, at, stored));
    };
    let v = mem_values::value_at(work, row);
    Ok(found(field.next, v.place, v.size, row, stored))
}

// A value as a hit among all values present; LOOSE where it is the name's own.
fn any_value(
    aligned: bool,
    stream: &[u8],
    at: usize,
    owner: u32,
    values: u32,
    capacity: u32,
    stored: usize,
    work: &[u32],
) -> Result<StringRead, Stopped>
    requires { HitPre stream.now at stored work.now values owner }
    ensures by_index { (text : List ℕ) (longest : ℕ) → ValuePost (alignment_of aligned) as_any
        stream.now at text stored work.now values longest capacity owner text
        (string_in result) }
    ensures by_index_2 { (text : List ℕ) → JoinsWithin values text (string_in result) }
{
    let low = mem_values::replaced(values, capacity);
    let field = read_field::choice(aligned, stream, at, values - low).map_err(|refusal| refused(
        refusal, at, stored,
    ))?;
    let newer = mem_values::newest_numbers(values, capacity);
    let Some(row) = mem_values::nth_global(values, low, newer, field.value) else {
        return Err(refused(Refusal::Reference, at, stored));
    };
    let v = mem_values::value_at(work, row);
    if v.owner == owner {
        return Err(refused(Refusal::Loose, field.next, stored));
    }
    Ok(found(field.next, v.place, v.size, row, stored))
}

// The row of the value present whose text is the n code points after the store.
fn seek(
    text: &[u32],
    stored: usize,
    n: u32,
    hash: u32,
    work: &[u32],
    values: u32,
    capacity: u32,
) -> Option<u32>
    requires { SoughtPre text.now stored n hash work.now values }
    ensures { FoundText work.now text.now
        (part text.now (record { place = stored; size = n })) hash values
        (replaced (bound_of capacity) values) (link_of result) }
{
    let low = mem_values::replaced(values, capacity);
    let x = text::look_up(text, stored as u32, n);
    mem_values::find(work, text, x, hash, values, low)
}

// A value as a literal of n code points, of any name, whether it joins the tables or not.
fn new_value(
    stream: &[u8],
    at: usize,
    n: u32,
    values: u32,
    longest: u32,
    capacity: u32,
    stored: usize,
    text: &mut [u32],
    work: &[u32],
) -> Result<StringRead, Stopped>
    requires { NewPre stream.now at text.old stored work.now values }
    ensures value_post { (a : Alignment) (owner : ℕ) → ValuePost a (as_new n) stream.now at
        text.old stored work.now values longest capacity owner
        text.new (string_in result) }
    ensures joins_within { JoinsWithin values text.new (string_in result) }
{
    let read = read_literal::read_literal(stream, at, text, stored, n)?;
    if let Some(_) = seek(text, stored, n, read.hash, work, values, capacity) {
        return Err(dropped(Refusal::Loose, read.next, n, stored, text));
    }
    if !mem_values::joins(n as usize, longest, capacity) {
        return Ok(laid(read.next, stored, n, 0, None));
    }
    if (capacity == 0) & (MAX_VALUES <= values as usize) {
        return Err(dropped(Refusal::Limit, read.next, n, stored, text));
    }
    Ok(laid(read.next, stored, n, values, Some(read.hash)))
}

// A value of the element or attribute whose name has this row, by the numbers of the value table:
// how many have joined, the longest that may, and how many it has room for.
pub fn read_value(
    aligned: bool,
    stream: &[u8],
    at: usize,
    owner: u32,
    values: u32,
    longest: u32,
    capacity: u32,
    stored: usize,
    text: &mut [u32],
    work: &[u32],
) -> Result<StringRead, Stopped>
    requires { ValuePre stream.now at text.old stored work.now values owner }
    ensures value_post { ValuePost (alignment_of aligned) as_value stream.now at text.old stored
        work.now values longest capacity owner text.new (string_in result) }
    ensures joins_within { JoinsWithin values text.new (string_in result) }
{
    let field = read_field::unsigned(stream, at).map_err(|refusal| refused(refusal, at, stored))?;
    let next = field.next;
    match field.value {
        0 => own_value(aligned, stream, next, owner, values, capacity, stored, work),
        1 => any_value(aligned, stream, next, owner, values, capacity, stored, work),
        number => {
            let n = number - 2;
            new_value(
                stream, next, n, values, longest, capacity, stored, text, work,
            )
        }
    }
}

// ---- strings by no table

// What refuses the n code points after the store in this role.
fn fault(text: &[u32], role: Role, stored: usize, n: u32) -> Result<(), Refusal>
    requires { stored ≤ max_store }
    ensures { fault_in result ≡ fault_of (role_in role)
        (part text.now (record { place = stored; size = n })) }
{
    let x = text::look_up(text, stored as u32, n);
    name_rules::judge_text(role, x)
}

// A literal of n code points that joins no table, judged once they are laid.
fn new_text(
    role: Role,
    stream: &[u8],
    at: usize,
    n: u32,
    stored: usize,
    text: &mut [u32],
) -> Result<StringRead, Stopped>
    requires { LiteralPre stream.now at text.old stored }
    ensures text_post { TextPost (as_literal (role_in role) n) stream.now at text.old stored
        text.new (string_in result) }
    ensures joins_value { (string_in result).joins ≡ false }
{
    let read = read_literal::read_literal(stream, at, text, stored, n)?;
    if let Err(refusal) = fault(text, role, stored, n) {
        return Err(dropped(refusal, read.next, n, stored, text));
    }
    Ok(laid(read.next, stored, n, 0, None))
}

// A target, a comment or an instruction's text.
pub fn read_text(
    role: Role,
    stream: &[u8],
    at: usize,
    stored: usize,
    text: &mut [u32],
) -> Result<StringRead, Stopped>
    requires { LiteralPre stream.now at text.old stored }
    ensures text_post { TextPost (as_string (role_in role)) stream.now at text.old stored
        text.new (string_in result) }
    ensures joins_value { (string_in result).joins ≡ false }
{
    let field = read_field::unsigned(stream, at).map_err(|refusal| refused(refusal, at, stored))?;
    new_text(role, stream, field.next, field.value, stored, text)
}
