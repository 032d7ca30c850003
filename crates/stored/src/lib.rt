// The stored form of a token list. "Tag byte, two-byte length, low byte first, payload: tag 1 kinds, then tag 2 joints,
// each once, nothing after." Nothing is copied: an answer says where the payloads stand in the caller's bytes.
#![tactic(auto)]

ghost use Rattle.std.specs.Prelude.{◌≡◌};
ghost use Rattle.stored.specs.Stored.{length_of, head_of, section_of, first_of, stored_of, long_of, limited_of, part_of, kinds_of, joints_of};

// The tag of a section. All tags stand here and nowhere else.
// It is no enum: `section_at` reads sections of every tag, as those of the cases of `read_tests`, with b'r' and b'b'.
#[derive(Clone, Copy, Debug, PartialEq, Eq)]
pub struct Tag(pub u8);

impl Tag {
    pub const KINDS: Tag = Tag(1);

    pub const JOINTS: Tag = Tag(2);
}

// The shape of a section: the tag, the low and the high byte of the length, and from `HEAD` on the payload.
#[derive(Clone, Copy, Debug, PartialEq, Eq)]
pub struct Section;

impl Section {
    pub const LOW: usize = 1;

    pub const HIGH: usize = 2;

    pub const HEAD: usize = 3;
    // What one unit of the high byte counts.
    pub const HIGH_UNIT: usize = 256;
}

// Where a part of the bytes starts, and how long it is: no slice, since `decode` and the others promise the places (`stored_of`).
#[derive(Clone, Copy, Debug, PartialEq, Eq)]
pub struct Span {
    pub at: usize,
    pub len: usize,
}

// Where the parts of a whole form stand: both payloads, and the place after the last byte. What takes a form takes the bytes beside it, since
// the form holds places.
#[derive(Clone, Copy, Debug, PartialEq, Eq)]
pub struct Form {
    pub kinds: Span,
    pub joints: Span,
    pub end: usize,
}

// Refusal 10 at this place.
#[derive(Clone, Copy, Debug, PartialEq, Eq)]
pub struct Broken(pub usize);

// Why a reader that takes no length above its limit has no form.
#[derive(Clone, Copy, Debug, PartialEq, Eq)]
pub enum Unread {
    // A length above the limit: refusal 3 at 0.
    Long,
    // Refusal 10 at this place.
    Broken(usize),
}

impl From<Broken> for Unread {
    ghost use Rattle.stored.specs.declared.Unread.TheVariants as unread;
    ghost use Rattle.std.specs.Prelude.{◌≡◌};

    ghost from_gives = { λ broken why. why ≡ unread.Broken broken.0 };

    fn from(broken: Broken) -> Unread {
        Unread::Broken(broken.0)
    }
}

// "two-byte length, low byte first"
fn length_of(low: u8, high: u8) -> usize
    ensures { result ≡ length_of low high }
{
    usize::from(low) + Section::HIGH_UNIT * usize::from(high)
}

// The length in the head of the section that starts at `at`: enough to know how much to read on.
#[tactic(auto, unfolding(crate::specs::Stored::head_of, base::specs::Base::whether))]
pub fn head_at(bytes: &[u8], at: usize, tag: Tag) -> Result<usize, Broken>
    ensures { result ≡ head_of bytes.now at tag.0 }
{
    let Some(&first) = bytes.get(at) else {
        return Err(Broken(bytes.len()));
    };
    if first != tag.0 {
        return Err(Broken(at));
    }
    if bytes.len() - at < Section::HEAD {
        return Err(Broken(bytes.len()));
    }
    Ok(length_of(bytes[at + Section::LOW], bytes[at + Section::HIGH]))
}

// The payload of the section that starts at `at`.
#[tactic(auto, using(crate::proofs::Cases::head_fits), unfolding(crate::specs::Stored::section_of, crate::specs::Stored::on_head, base::specs::Base::whether))]
pub fn section_at(bytes: &[u8], at: usize, tag: Tag) -> Result<Span, Broken>
    ensures { result ≡ section_of bytes.now at tag.0 }
{
    let len = head_at(bytes, at, tag)?;
    if bytes.len() - at - Section::HEAD < len {
        return Err(Broken(bytes.len()));
    }
    Ok(Span {
        at: at + Section::HEAD,
        len,
    })
}

// The form that stands first in `bytes`; others may follow from its end on.
#[tactic(auto, using(crate::proofs::Cases::section_fits), unfolding(crate::specs::Stored::first_of, crate::specs::Stored::on_section))]
pub fn decode_first(bytes: &[u8]) -> Result<Form, Broken>
    ensures { result ≡ first_of bytes.now }
{
    let kinds = section_at(bytes, 0, Tag::KINDS)?;
    let joints = section_at(bytes, kinds.at + kinds.len, Tag::JOINTS)?;
    let end = joints.at + joints.len;
    Ok(Form { kinds, joints, end })
}

// The one form that `bytes` are: "nothing after".
#[tactic(auto, unfolding(crate::specs::Stored::stored_of, crate::specs::Stored::on_stored, base::specs::Base::whether))]
pub fn decode(bytes: &[u8]) -> Result<Form, Broken>
    ensures { result ≡ stored_of bytes.now }
{
    let form = decode_first(bytes)?;
    if form.end == bytes.len() {
        Ok(form)
    } else {
        Err(Broken(form.end))
    }
}

// Whether a length that is read before anything is broken is above the limit.
#[tactic(auto, unfolding(crate::specs::Stored::long_of, crate::specs::Stored::on_head, base::specs::Base::whether))]
pub fn too_long(bytes: &[u8], limit: u16) -> bool
    ensures { result ≡ long_of bytes.now limit }
{
    let most = usize::from(limit);
    let Ok(kinds_len) = head_at(bytes, 0, Tag::KINDS) else {
        return false;
    };
    if most < kinds_len {
        return true;
    }
    let Ok(joints_len) = head_at(bytes, Section::HEAD + kinds_len, Tag::JOINTS) else {
        return false;
    };
    most < joints_len
}

// The one form that `bytes` are, or a length above the limit.
#[tactic(auto, unfolding(crate::specs::Stored::limited_of, crate::specs::Stored::on_stored, base::specs::Base::whether))]
pub fn decode_limited(bytes: &[u8], limit: u16) -> Result<Form, Unread>
    ensures { result ≡ limited_of bytes.now limit }
{
    if too_long(bytes, limit) {
        return Err(Unread::Long);
    }
    Ok(decode(bytes)?)
}

// The bytes of a span, or none where it runs past the end.
#[tactic(auto, unfolding(crate::specs::Stored::part_of, base::specs::Base::pick))]
pub fn part(bytes: &[u8], span: Span) -> &[u8]
    ensures { result.now ≡ part_of bytes.now span }
{
    let none = &bytes[..0];
    let rest = bytes.get(span.at..).unwrap_or(none);
    rest.get(..span.len).unwrap_or(none)
}

// The kinds of a form, as a part of its bytes.
#[tactic(auto, unfolding(crate::specs::Stored::kinds_of))]
pub fn kinds(bytes: &[u8], form: Form) -> &[u8]
    ensures { result.now ≡ kinds_of bytes.now form }
{
    part(bytes, form.kinds)
}

// The joints of a form, as a part of its bytes.
#[tactic(auto, unfolding(crate::specs::Stored::joints_of))]
pub fn joints(bytes: &[u8], form: Form) -> &[u8]
    ensures { result.now ≡ joints_of bytes.now form }
{
    part(bytes, form.joints)
}
