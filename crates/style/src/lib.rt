// The style in force: the name that \r gave, a part of the block, or else the line's own name.
#![tactic(auto)]

ghost use Rattle.std.specs.Prelude.{◌≡◌};
ghost use Rattle.style.specs.Style.{lower_ground, texts_ground, shown, given_name, named, style_in, PlaceStands, InItsText, IsName, InForce};

use refusal::Refusal;
use state::{Part, RenderState};

// The style in force by places: whether it is a part of the block, or else of the own name, and where it begins and ends.
#[derive(Clone, Copy, Drop)]
pub struct Place {
    pub of_block: bool,
    pub from: usize,
    pub to: usize,
}

// The ground of the lower number, of equal numbers the first.
fn lower_ground(c: Result<(), Refusal>, d: Result<(), Refusal>) -> Result<(), Refusal>
    ensures { result ≡ lower_ground c d }
{
    match (c, d) {
        (Err(r), Err(q)) if q.number() < r.number() => d,
        _ => c.and(d),
    }
}

// Grounds 1 and 2 of the block and of the name, by number.
pub fn check_texts(block: &[u8], own: &[u8]) -> Result<(), Refusal>
    ensures { result ≡ texts_ground block.now own.now }
{
    lower_ground(refusal::check_text(block), refusal::check_text(own))
}

// The name that \r gave, of a block of len bytes.
fn given_name(p: Part, len: usize) -> Result<Place, Refusal>
    ensures { result ≡ given_name p len }
{
    let from = p.offset as usize;
    let to = from + p.size as usize;
    if to <= len {
        Ok(Place {
            of_block: true,
            from,
            to,
        })
    } else {
        Err(Refusal::NameBeyondText)
    }
}

// The name that \r gave, or else the line's own, of texts that have no ground against them; from what \r left.
pub fn named_reset(reset: Option<Option<Part>>, block: &[u8], own: &[u8]) -> Result<Place, Refusal>
    ensures { result ≡ named reset block.now own.now }
{
    match reset {
        Some(Some(p)) => given_name(p, block.len()),
        _ => Ok(Place {
            of_block: false,
            from: 0,
            to: own.len(),
        }),
    }
}

// 01, "Style in force", by places.
pub fn style_at(st: RenderState, block: &[u8], own: &[u8]) -> Result<Place, Refusal>
    ensures value { result ≡ style_in st block.now own.now }
    ensures place_stands { PlaceStands st block.now own.now result }
{
    check_texts(block, own)?;
    named_reset(st.line.reset_to_style, block, own)
}

// The part that a place names, of the block or of the name: the caller's own bytes where they lie.
fn part_at<'a>(p: Place, block: &'a [u8], own: &'a [u8]) -> &'a [u8]
    requires { InItsText block.now own.now p }
    ensures { IsName p block.entry own.entry result }
{
    let text = if p.of_block { block } else { own };
    &text[p.from..p.to]
}

// The style in force: the part itself, and its place.
#[derive(Clone, Copy, Drop)]
pub struct StyleName<'a> {
    pub name: &'a [u8],
    pub place: Place,
}

// 01, "Style in force": "the name that \r gave, a part of the block, or else the line's own name, a part of the other text".
pub fn style_in_force<'a>(
    st: RenderState,
    block: &'a [u8],
    own: &'a [u8],
) -> Result<StyleName<'a>, Refusal>
    ensures { InForce st block.entry own.entry result }
{
    let place = style_at(st, block, own)?;
    Ok(StyleName {
        name: part_at(place, block, own),
        place,
    })
}

// The name alone; beside a refusal an empty part of the line's own.
pub fn style_name<'a>(st: RenderState, block: &'a [u8], own: &'a [u8]) -> &'a [u8]
    ensures { IsName (shown (style_in st block.now own.now)) block.entry own.entry result }
{
    match style_at(st, block, own) {
        Ok(place) => part_at(place, block, own),
        Err(_) => &own[..0],
    }
}
