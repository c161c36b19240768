// What a function that judges a string answers, before anything is written or added: a refusal, or
// what is to join its table once the whole event is accepted. And the two forms in which a string
// of a partition is written (EXI 7.3.3). What the functions ask and leave is in specs/.
#![tactic(auto)]

ghost use Rattle.std.specs.Prelude.{◌≡◌, ◌≤◌, length};
ghost use Rattle.spec_exi.specs.Sizes.{max_store};
ghost use Rattle.spec_exi.specs.Writer.{first_failed};
ghost use Rattle.read_field.specs.View.{alignment_of};
ghost use Rattle.write_field.specs.Written.{Put};
ghost use Rattle.write_partition.specs.Judged.{fault_in, fault_number, literal_tests};
ghost use Rattle.write_partition.specs.Bits.{hit_bits, HitPre};

use refusal::Refusal;
use sizes::MAX_STORE;

// The string's row in its table, or the row that it is to have; the code points in the store after
// it; and whether it is to join, with the hash of its text.
#[derive(Clone, Copy)]
pub struct StringJudged {
    pub row: u32,
    pub stored: usize,
    pub joins: bool,
    pub hash: u32,
}

// Judges the text of a literal: the store's size, then its characters.
pub fn literal_fault(x: &[u32], stored: usize) -> Result<(), Refusal>
    requires { stored ≤ max_store }
    ensures { fault_in result ≡ fault_number (first_failed (literal_tests x.now stored)) }
{
    if MAX_STORE - stored < x.len() {
        return Err(Refusal::Limit);
    }
    if !text::all_chars(x) {
        return Err(Refusal::Character);
    }
    Ok(())
}

// A hit: the number of the partition, then the compact identifier among so many. (One that is not
// among them is written as 0; where memory holds a table there is none.)
pub fn put_hit(
    aligned: bool,
    stream: &mut [u8],
    at: usize,
    partition: u32,
    among: u32,
    id: u32,
) -> usize
    requires { HitPre stream.old at partition among }
    ensures { Put stream.old at (hit_bits (alignment_of aligned) partition among id)
        stream.new result }
{
    let next = write_field::put_unsigned(stream, at, partition);
    write_field::put_choice(aligned, stream, next, among, mem_chain::less(id, among))
}
