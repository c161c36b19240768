// Which names are refused: what is no NCName; a target `xml`; attribute nil or type in the
// XMLSchema-instance URI. Which comments and instructions' texts are refused (02, P6).
#![tactic(auto, unfolding(crate::proofs::Definitions::rules_of_names))]

ghost use Rattle.std.specs.Prelude.{◌≡◌};
ghost use Rattle.text.specs.Names.{has_pair, ends_in};
ghost use Rattle.spec_exi.specs.Tables.{name_allowed, text_allowed, local, target};
ghost use Rattle.spec_exi.specs.Tables.{comment_text, instruction_text};
ghost use Rattle.name_rules.specs.Names.{is_reserved};
ghost use Rattle.name_rules.specs.Texts.{role_in, fault_of, fault_in};

use refusal::Refusal;

// "http://www.w3.org/2001/XMLSchema-instance"
const INSTANCE: [u32; 41] = [
    104, 116, 116, 112, 58, 47, 47, 119, 119, 119, 46, 119, 51, 46, 111, 114, 103, 47, 50, 48, 48,
    49, 47, 88, 77, 76, 83, 99, 104, 101, 109, 97, 45, 105, 110, 115, 116, 97, 110, 99, 101,
];

// "nil"
const NIL: [u32; 3] = [110, 105, 108];

// "type"
const TYPE: [u32; 4] = [116, 121, 112, 101];

// Tells a name that no attribute may have; that it is an NCName is known.
pub fn is_reserved(uri: &[u32], local: &[u32]) -> bool
    ensures { result ≡ is_reserved uri.now local.now }
{
    text::same_text(uri, &INSTANCE)
        && (text::same_text(local, &NIL) || text::same_text(local, &TYPE))
}

// Tells whether a local name is allowed: an attribute's where attr, an element's otherwise. The
// strings may be parts that start anywhere in a store.
pub fn local_allowed(attr: bool, uri: &[u32], name: &[u32]) -> bool
    ensures { result ≡ name_allowed (local attr uri.now) name.now }
{
    name_chars::is_ncname(name) && (!attr || !is_reserved(uri, name))
}

pub fn target_allowed(name: &[u32]) -> bool
    ensures { result ≡ name_allowed target name.now }
{
    name_chars::is_ncname(name) && !name_chars::is_xml(name)
}

fn has_pair(x: &[u32], a: u32, b: u32) -> bool
    ensures { result ≡ has_pair a b x.now }
{
    for w in x.windows(2) {
        if w[0] == a && w[1] == b {
            return true;
        }
    }
    false
}

fn ends_in(x: &[u32], a: u32) -> bool
    ensures { result ≡ ends_in a x.now }
{
    let [.., last] = x else {
        return false;
    };
    *last == a
}

// Refuses two hyphens in a row, and one at the end (XML 1.0, production 15).
pub fn comment_allowed(x: &[u32]) -> bool
    ensures { result ≡ text_allowed comment_text x.now }
{
    !has_pair(x, 0x2D, 0x2D) && !ends_in(x, 0x2D)
}

// Refuses `?>` (XML 1.0, production 16).
pub fn instruction_allowed(x: &[u32]) -> bool
    ensures { result ≡ text_allowed instruction_text x.now }
{
    !has_pair(x, 0x3F, 0x3E)
}

// ---- strings by no table

// What such a string is: an instruction's target or text, or a comment.
#[derive(Clone, Copy, PartialEq, Eq)]
pub enum Role {
    Target,
    Comment,
    Instruction,
}

// Judges such a string once its code points have passed (02, P6).
pub fn judge_text(role: Role, x: &[u32]) -> Result<(), Refusal>
    ensures { fault_in result ≡ fault_of (role_in role) x.now }
{
    match role {
        Role::Target if target_allowed(x) => Ok(()),
        Role::Target => Err(Refusal::Name),
        Role::Comment if comment_allowed(x) => Ok(()),
        Role::Instruction if instruction_allowed(x) => Ok(()),
        Role::Comment | Role::Instruction => Err(Refusal::Character),
    }
}
