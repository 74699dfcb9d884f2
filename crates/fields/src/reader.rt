// R18.1 and R20.5 of docs/RULES.md: a reader over a lent file. It hands out each field with its content.
ghost use Rattle.std.specs.Prelude.{◌≡◌};
ghost use Rattle.fields.specs.Fields.{field_at};
ghost use Rattle.fields.specs.Pieces.{content_at};

use crate::field::{Field, field_at};
use tables::Refusal;

// A reader: the file, and the place of the next field.
#[derive(Clone, Copy, Debug)]
pub struct Reader<'a> {
    pub file: &'a [u8],
    pub at: usize,
}

// What stands at a place of the file, as the reader hands it out, and its content: a part of the file, the empty one where no field stands.
#[derive(Clone, Copy, Debug)]
pub struct Piece<'a> {
    pub content: &'a [u8],
    pub found: Result<Option<Field>, Refusal>,
}

impl<'a> Reader<'a> {
    // A reader at the file's first field.
    pub fn open(file: &'a [u8]) -> Self
        ensures { (result.file ≡ file.entry) × (result.at ≡ 0) }
    {
        Reader { file, at: 0 }
    }

    // The same file at another place: behind a field that was handed out.
    pub fn moved(self, at: usize) -> Self
        ensures { (result.file ≡ self.entry.file) × (result.at ≡ at) }
    {
        Reader { at, ..self }
    }

    // What stands at the reader's place, with its content.
    #[tactic(auto, unfolding(crate::specs::Pieces::content_at, crate::specs::Pieces::content_of))]
    pub fn next_field(self) -> Piece<'a>
        ensures { (result.content.now ≡ content_at self.entry.file.now self.entry.at)
            × (result.found ≡ field_at self.entry.file.now self.entry.at) }
    {
        let found = field_at(self.file, self.at);
        let content = match found.unwrap_or(None) {
            Some(field) => field.part.bytes_in(self.file),
            None => &self.file[..0],
        };
        Piece { content, found }
    }
}

impl<'a> Piece<'a> {
    // The content of the field that was handed out.
    pub fn content(self) -> &'a [u8]
        ensures { result ≡ self.entry.content }
    {
        self.content
    }
}

// The content of the field at a place, by a reader that is moved there.
pub fn content_from<'a>(file: &'a [u8], at: usize) -> &'a [u8]
    ensures { result.now ≡ content_at file.now at }
{
    Reader::open(file).moved(at).next_field().content()
}
