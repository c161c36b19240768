// Names of XML 1.0, Fifth Edition, without the colon: NCName of Namespaces in XML 1.0 (02, P6). The
// contracts cite crates/text/specs/Names.antt.
#![tactic(auto)]

ghost use Rattle.std.specs.Prelude.{◌≡◌, ◌||◌, ◌≤◌, eqb};
ghost use Rattle.text.specs.Names.{is_name_start, is_name_char, is_ncname, is_xml};
ghost use Rattle.name_chars.specs.Class.{table};

mod class;

// Tells what may stand first in a name, of what has no class in the table (XML 1.0, production 4).
#[tactic(auto, unfolding(text::proofs::Names::name_definitions))]
fn is_high_start(p: u32) -> bool
    requires { 768 ≤ p }
    ensures { result ≡ is_name_start p }
{
    match p {
        0x370..=0x37D => true,
        0x37F..=0x1FFF => true,
        0x200C..=0x200D => true,
        0x2070..=0x218F => true,
        0x2C00..=0x2FEF => true,
        0x3001..=0xD7FF => true,
        0xF900..=0xFDCF => true,
        0xFDF0..=0xFFFD => true,
        0x10000..=0xEFFFF => true,
        _ => false,
    }
}

// Tells what may stand first in a name: by the table alone where that has its class (02, P10).
fn is_name_start(classes: &[u8], p: u32) -> bool
    requires { classes.now ≡ table }
    ensures { result ≡ is_name_start p }
{
    if p < class::TABLED {
        return class::class_in(classes, p) == class::FIRST;
    }
    is_high_start(p)
}

// Tells what may stand in a name (XML 1.0, production 4a).
#[tactic(auto, unfolding(text::proofs::Names::name_definitions))]
fn is_name_char(classes: &[u8], p: u32) -> bool
    requires { classes.now ≡ table }
    ensures { result ≡ is_name_char p }
{
    if p < class::TABLED {
        return class::class_in(classes, p) != class::NONE;
    }
    if is_high_start(p) {
        return true;
    }
    match p {
        0x300..=0x36F => true,
        0x203F..=0x2040 => true,
        _ => false,
    }
}

// Tells an NCName (Namespaces in XML 1.0, production 4), in a part that may start anywhere in a
// store. The table is taken once: a constant array is built anew wherever it is named.
pub fn is_ncname(x: &[u32]) -> bool
    ensures { result ≡ is_ncname x.now }
{
    let [first, rest @ ..] = x else {
        return false;
    };
    let classes = class::CLASS;
    if !is_name_start(&classes, *first) {
        return false;
    }
    for &p in rest {
        if !is_name_char(&classes, p) {
            return false;
        }
    }
    true
}

fn is_either(p: u32, a: u32, b: u32) -> bool
    ensures { result ≡ (eqb p a || eqb p b) }
{
    p == a || p == b
}

// Tells the three letters x m l, each in either case (XML 1.0, production 17).
pub fn is_xml(x: &[u32]) -> bool
    ensures { result ≡ is_xml x.now }
{
    let [a, b, c] = x else {
        return false;
    };
    is_either(*a, 0x58, 0x78) & is_either(*b, 0x4D, 0x6D) & is_either(*c, 0x4C, 0x6C)
}
