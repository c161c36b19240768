// What the two sides agree on outside the stream: the numbers that a caller hands over, and what
// they mean.
#![tactic(auto)]

ghost use Rattle.std.specs.Prelude.{◌≡◌};
ghost use Rattle.spec_exi.specs.Settings.{meaningful};
ghost use Rattle.settings.specs.Meant.{numbers_of, settings_meant};

use sizes::MAX_VALUES;

// The greatest capacity, as its number has it.
const MOST: u32 = MAX_VALUES as u32 + 1;

// All 0 is the base. Alignment 1 is byte-aligned; cookie, comments, instructions and fragment are 1
// for yes; of the two for values (EXI 5.4; P5) 0 is unbounded, and n + 1 a bound n. The last three
// are reserved: no number but 0 has a meaning yet.
#[repr(C)]
#[derive(Clone, Copy)]
pub struct SettingNumbers {
    pub alignment: u32,
    pub cookie: u32,
    pub comments: u32,
    pub instructions: u32,
    pub fragment: u32,
    pub value_length: u32,
    pub value_capacity: u32,
    pub loose: u32,
    pub prefixes: u32,
    pub grammar_cap: u32,
}

// The longest value that joins and the capacity of the value partitions are as they were handed
// over.
#[derive(Clone, Copy)]
pub struct Settings {
    pub aligned: bool,
    pub cookie: bool,
    pub comments: bool,
    pub instructions: bool,
    pub fragment: bool,
    pub longest: u32,
    pub capacity: u32,
}

// Whether each number has a meaning.
pub fn are_meaningful(s: SettingNumbers) -> bool
    ensures { result ≡ meaningful (numbers_of s) }
{
    (s.alignment <= 1)
        & (s.cookie <= 1)
        & (s.comments <= 1)
        & (s.instructions <= 1)
        & (s.fragment <= 1)
        & (s.value_capacity <= MOST)
        & (s.loose == 0)
        & (s.prefixes == 0)
        & (s.grammar_cap == 0)
}

// A receiver tests the numbers in one call and asks for the settings in others: no `TryFrom` does
// both.
#[tactic(auto, unfolding(crate::specs::Meant::settings_meant))]
pub fn settings_of(s: SettingNumbers) -> Settings
    ensures { result ≡ settings_meant s }
{
    Settings {
        aligned: s.alignment == 1,
        cookie: s.cookie == 1,
        comments: s.comments == 1,
        instructions: s.instructions == 1,
        fragment: s.fragment == 1,
        longest: s.value_length,
        capacity: s.value_capacity,
    }
}

// The same, field by field: a copy to be lent to a call, so that these stay in registers
// (docs/decisions/speed.md).
pub fn copied(o: Settings) -> Settings
    ensures { result ≡ o }
{
    Settings {
        aligned: o.aligned,
        cookie: o.cookie,
        comments: o.comments,
        instructions: o.instructions,
        fragment: o.fragment,
        longest: o.longest,
        capacity: o.capacity,
    }
}
