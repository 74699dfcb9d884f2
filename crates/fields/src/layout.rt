// The walk over the file's fields, R16.5 of docs/RULES.md: where the content of each stands.
ghost use Rattle.std.specs.Prelude.{◌≡◌, ◌+◌, ◌≤◌, length, map};
ghost use Rattle.fields.specs.Layouts.{part_of, length_in, start_of, length_of, unseen, placed, content, walked};

use crate::field::{Field, KINDS, Kind, Part, field_at};
use tables::Refusal;

// Where the content of each field stands, by the place of its kind: none where there is no such field.
#[derive(Clone, Copy, Debug, PartialEq, Eq)]
pub struct Layout {
    pub parts: [Option<Part>; KINDS],
}

#[tactic(auto, unfolding(crate::specs::Layouts::unseen, crate::specs::Layouts::part_of, crate::specs::Layouts::placed))]
impl Layout {
    // No field.
    fn unseen() -> Self
        ensures { result ≡ unseen }
    {
        Layout {
            parts: [None; KINDS],
        }
    }

    // Where the content of a kind stands, if there is such a field.
    pub fn part_of(&self, kind: Kind) -> Option<Part>
        ensures { result ≡ part_of self.now kind }
    {
        self.parts[kind.place()]
    }

    // The lengths of the contents, by the place of their kind: 0 where there is no such field.
    pub fn lengths(&self) -> [usize; KINDS]
        ensures { result ≡ map length_in self.now.parts }
    {
        self.parts.map(|part| part.map_or(0, |part| part.length))
    }

    // A field more.
    fn place(&mut self, field: Field)
        ensures { self.new ≡ placed self.old field }
    {
        self.parts[field.kind.place()] = Some(field.part);
    }
}

// The layout of the file's fields, one after the other, or the first refusal of 10, 11, 12 and 19.
#[tactic(auto, unfolding(crate::specs::Layouts::walked))]
pub fn walk(file: &[u8]) -> Result<Layout, Refusal>
    ensures { result ≡ walked file.now }
{
    let mut layout = Layout::unseen();
    let mut at = 0;
    let mut last = 0;
    while let Some(field) = field_at(file, at)? {
        let tag = field.kind.tag();
        let again = layout.part_of(field.kind).is_some();
        let falls = tag < last;
        if again {
            return Err(Refusal::Again);
        }
        if falls {
            return Err(Refusal::Falling);
        }
        layout.place(field);
        at = field.next;
        last = tag;
    }
    Ok(layout)
}

// The length of the content of a kind, 0 where there is no such field.
#[tactic(auto, unfolding(crate::specs::Layouts::length_of))]
pub fn length_of(layout: Layout, kind: Kind) -> usize
    ensures { result ≡ length_of layout kind }
{
    layout.part_of(kind).map_or(0, |part| part.length)
}

// The content of a kind: a part of the file, the empty one where there is no such field.
#[tactic(auto, unfolding(crate::specs::Layouts::start_of, crate::specs::Layouts::length_of, crate::specs::Layouts::content))]
pub fn content<'a>(file: &'a [u8], layout: Layout, kind: Kind) -> &'a [u8]
    requires { start_of layout kind + length_of layout kind ≤ length file.now }
    ensures { result.now ≡ content file.now layout kind }
{
    match layout.part_of(kind) {
        Some(part) => part.bytes_in(file),
        None => &file[..0],
    }
}
