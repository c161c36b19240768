// Events, one a line, indented by depth.
#![tactic(auto)]

ghost use Rattle.std.specs.Prelude.{◌≡◌, ◌≤◌};
ghost use Rattle.exi_show.specs.Levels.{begins_of, ends_of};

use event::Event;
use exi_text::Store;
use sizes::CELLS_PER_EVENT;
use std::fmt;

// How many levels an event begins: 1 or none.
fn begins(e: Event) -> u32
    ensures { (result ≡ begins_of e) × (result ≤ 1) }
{
    match e {
        Event::StartDocument | Event::StartElement(_, _) => 1,
        _ => 0,
    }
}

// How many it ends.
fn ends(e: Event) -> u32
    ensures { result ≡ ends_of e }
{
    match e {
        Event::EndDocument | Event::EndElement => 1,
        _ => 0,
    }
}

#[derive(Clone, Copy)]
struct Line<'a> {
    event: Event,
    store: Store<'a>,
}

impl fmt::Display for Line<'_> {
    fn fmt<W: fmt::Write>(&self, f: &mut fmt::Formatter<W>) -> fmt::Result {
        let store = self.store;
        match self.event {
            Event::StartDocument => f.write_str("start document"),
            Event::EndDocument => f.write_str("end document"),
            Event::StartElement(uri, local) => {
                write!(f, "start element {}", store.name(uri, local))
            }
            Event::Attribute(uri, local, value) => {
                let name = store.name(uri, local);
                write!(f, "attribute {name} = {}", store.text(value))
            }
            Event::EndElement => f.write_str("end element"),
            Event::Characters(x) => write!(f, "characters {}", store.text(x)),
            Event::Comment(x) => write!(f, "comment {}", store.text(x)),
            Event::Instruction(target, x) => {
                let target = store.text(target);
                write!(f, "instruction {target} {}", store.text(x))
            }
        }
    }
}

// Stored events, and whether they are shown with their indexes.
#[derive(Clone, Copy)]
pub struct Events<'a> {
    pub cells: &'a [u32],
    pub store: Store<'a>,
    pub indexes: bool,
}

impl fmt::Display for Events<'_> {
    fn fmt<W: fmt::Write>(&self, f: &mut fmt::Formatter<W>) -> fmt::Result {
        let mut depth: u32 = 0;
        for (i, cells) in self.cells.chunks_exact(CELLS_PER_EVENT).enumerate() {
            let Some(event) = event::load(cells, 0) else {
                continue;
            };
            depth = depth.saturating_sub(ends(event));
            if self.indexes {
                write!(f, "{i:4}  ")?;
            }
            f.write_repeated("  ", depth as usize)?;
            let store = self.store;
            writeln!(f, "{}", Line { event, store })?;
            depth = depth.saturating_add(begins(event));
        }
        Ok(())
    }
}
