// A field of the file, R16.1 of docs/RULES.md: a tag, a length and the content.
ghost use Rattle.std.specs.Prelude.{◌≡◌, ◌+◌, ◌≤◌, length};
ghost use Rattle.words.specs.Numbers.{unsigned_at};
ghost use Rattle.fields.specs.Fields.{place_of, tag_of, kind_of, head, bytes_in, field_at};

use tables::Refusal;

// A field's head: one byte of tag, two of length.
pub const HEAD: usize = 3;

// The kinds of field, in the order of their tags, from 1 on (R16.2, R20.4).
#[derive(Clone, Copy, Debug, PartialEq, Eq)]
pub enum Kind {
    Order = 1,
    Low,
    High,
    LinearLow,
    Limit,
    Centre,
    LinearHigh,
}

// How many there are.
pub const KINDS: usize = 7;

// A part of a file: it starts at start and has length bytes.
#[derive(Clone, Copy, Debug, PartialEq, Eq)]
pub struct Part {
    pub start: usize,
    pub length: usize,
}

// A field of a file: its kind, the part that is its content, and the place of the next field.
#[derive(Clone, Copy, Debug, PartialEq, Eq)]
pub struct Field {
    pub kind: Kind,
    pub part: Part,
    pub next: usize,
}

impl Kind {
    // A kind's tag.
    pub fn tag(self) -> u8
        ensures { result ≡ tag_of self }
    {
        self as u8
    }

    // A kind's place among the kinds: its tag less 1.
    pub fn place(self) -> usize
        ensures { result ≡ place_of self }
    {
        self as usize - 1
    }
}

// The kind of field that a tag stands for.
impl TryFrom<u8> for Kind {
    type Error = Refusal;

    ghost try_from_gives = { λ tag kind. kind ≡ kind_of tag };

    #[tactic(auto, unfolding(crate::specs::Fields::kind_of, crate::specs::Fields::kind_in))]
    fn try_from(tag: u8) -> Result<Self, Refusal> {
        match tag {
            1 => Ok(Kind::Order),
            2 => Ok(Kind::Low),
            3 => Ok(Kind::High),
            4 => Ok(Kind::LinearLow),
            5 => Ok(Kind::Limit),
            6 => Ok(Kind::Centre),
            7 => Ok(Kind::LinearHigh),
            _ => Err(Refusal::Tag),
        }
    }
}

impl Part {
    // The bytes of the part.
    pub fn bytes_in<'a>(self, file: &'a [u8]) -> &'a [u8]
        requires { self.start + self.length ≤ length file.now }
        ensures { result.now ≡ bytes_in file.now self }
    {
        &file[self.start..self.start + self.length]
    }
}

// The length in a field's head: two bytes, low byte first.
#[tactic(auto, unfolding(words::specs::Numbers::unsigned_at, words::specs::Numbers::from_le_bytes))]
fn length_at(file: &[u8], at: usize) -> usize
    requires { at + head ≤ length file.now }
    ensures { result ≡ unsigned_at 2 file.now (at + 1) }
{
    let low = usize::from(file[at + 1]);
    let high = usize::from(file[at + 2]);
    low + 256 * high
}

// What stands at a place of the file (R16.4): a field, or nothing at the file's end; or what is refused, 10, then 11.
#[tactic(auto, unfolding(crate::specs::Fields::field_at, crate::specs::Fields::tagged))]
pub fn field_at(file: &[u8], at: usize) -> Result<Option<Field>, Refusal>
    ensures { result ≡ field_at file.now at }
{
    let size = file.len();
    if size <= at {
        return Ok(None);
    }
    if size - at < HEAD {
        return Err(Refusal::Cut);
    }
    let start = at + HEAD;
    let length = length_at(file, at);
    if size - start < length {
        return Err(Refusal::Cut);
    }
    let kind = Kind::try_from(file[at])?;
    let part = Part { start, length };
    Ok(Some(Field {
        kind,
        part,
        next: start + length,
    }))
}
