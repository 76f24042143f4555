// The reader of plans and reports: the caller's bytes and a place in them. The work is done on a slice and a number; the reader's own functions are thin.
#![tactic(auto)]

ghost use Rattle.std.specs.Prelude.{◌≡◌};
ghost use Rattle.reader.specs.Places.{kind_named, body_of, kind_of, kind_at};

// The kind of a record. Links, Flow and End are a plan's, Count, Line and Close a report's.
#[derive(Clone, Copy, PartialEq, Eq)]
pub enum Kind {
    Links,
    Flow,
    End,
    Count,
    Line,
    Close,
}

// The table of kinds: the byte of each, and the length of its body.
impl Kind {
    #[tactic(auto, unfolding(crate::specs::Places::kind_named))]
    fn from_byte(byte: u8) -> Option<Kind>
        ensures { result ≡ kind_named byte }
    {
        match byte {
            records::LINKS_KIND => Some(Kind::Links),
            records::FLOW_KIND => Some(Kind::Flow),
            records::END_KIND => Some(Kind::End),
            records::COUNT_KIND => Some(Kind::Count),
            records::LINE_KIND => Some(Kind::Line),
            records::CLOSE_KIND => Some(Kind::Close),
            _ => None,
        }
    }

    fn body(self) -> usize
        ensures { result ≡ body_of self }
    {
        match self {
            Kind::Links => records::LINKS_BODY,
            Kind::Flow => records::FLOW_BODY,
            Kind::End => 0,
            Kind::Count => records::COUNT_BODY,
            Kind::Line => records::LINE_BODY,
            Kind::Close => 0,
        }
    }
}

// Of a kind byte with left bytes after it.
#[tactic(auto, unfolding(crate::specs::Places::kind_of))]
fn kind_of(byte: u8, left: usize) -> Option<Kind>
    ensures { result ≡ kind_of byte left }
{
    let kind = Kind::from_byte(byte)?;
    if left < kind.body() {
        return None;
    }
    Some(kind)
}

// The whole record at a place; none where no kind byte is left, the kind is unknown or the body short.
#[tactic(auto, unfolding(crate::specs::Places::kind_at))]
fn kind_at(bytes: &[u8], at: usize) -> Option<Kind>
    ensures { result ≡ kind_at bytes.now at }
{
    let byte = *bytes.get(at)?;
    kind_of(byte, bytes.len() - (at + 1))
}

#[derive(Clone, Copy)]
pub struct Reader<'a> {
    pub src: &'a [u8],
    pub at: usize,
}

impl<'a> Reader<'a> {
    // At the first byte.
    pub fn new(src: &'a [u8]) -> Reader<'a>
        ensures { (result.src ≡ src.entry) × (result.at ≡ 0) }
    {
        Reader { src, at: 0 }
    }

    // The same bytes, at another place.
    pub fn moved(self, at: usize) -> Reader<'a>
        ensures { (result.src ≡ self.entry.src) × (result.at ≡ at) }
    {
        Reader { src: self.src, at }
    }

    // The record at its place.
    pub fn next(self) -> Option<Kind>
        ensures { result ≡ kind_at self.entry.src.now self.entry.at }
    {
        kind_at(self.src, self.at)
    }
}

// The record that a reader sees at a place. Its parameters are plain, so that whoever calls it needs no walk by hand.
pub fn seen<'a>(bytes: &'a [u8], at: usize) -> Option<Kind>
    ensures { result ≡ kind_at bytes.now at }
{
    Reader::new(bytes).moved(at).next()
}
