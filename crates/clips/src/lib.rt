// Clip arguments: the scale, and the rest of the caller's own slice.
#![tactic(auto)]

ghost use Rattle.std.specs.Prelude.{◌≡◌, ◌≤◌, IfOk, length};
ghost use Rattle.scan.specs.Scan.{other, span_to, Place};
ghost use Rattle.clips.specs.Clip.{clip_parts, clip_of, parts_of, ClipStands, IsRest, Splits};
ghost use Rattle.clips.specs.Inner.{ClipIn, InOrder};

use refusal::Refusal;

// A clip argument by places: the scale, and where the rest of it begins and ends.
#[derive(Clone, Copy, Drop)]
pub struct Clip {
    pub scale: u32,
    pub from: usize,
    pub to: usize,
}

// The first comma between two places, or the later one.
// For the compiler (MEASURED, Shapes for the compiler): a function of its own, in which the loop is short.
#[inline(never)]
fn comma_at(text: &[u8], from: usize, to: usize) -> usize
    requires { (from ≤ to) × (to ≤ length text.now) }
    ensures { Place from to (span_to (other 44) text.now from to) result }
{
    scan::span(text, scan::Not(b','), from, to)
}

// The scale before the first comma and the rest behind it, or 1 and all; leading blanks dropped.
fn clip_parts(text: &[u8]) -> Clip
    ensures { ClipIn text.now (clip_parts text.now) result }
{
    let to = text.len();
    let from = scan::trim_start(text, 0, to);
    let all = Clip { scale: 1, from, to };
    // For the compiler (MEASURED, Shapes for the compiler): a short way.
    // what does not begin with a digit has no scale
    if scan::past(text, scan::Digit(10), from, to) == from {
        return all;
    }
    let comma = comma_at(text, from, to);
    if comma == to {
        return all;
    }
    let n = numeral::whole_number(text, 10, from, scan::trim_end(text, from, comma));
    match u32::try_from(n) {
        Ok(scale) => Clip {
            scale: scale.max(1),
            from: scan::trim_start(text, comma + 1, to),
            to,
        },
        Err(_) => all,
    }
}

// 01, src/drawing.rs: a clip argument by places.
pub fn clip_at(text: &[u8]) -> Result<Clip, Refusal>
    ensures is { result ≡ clip_of text.now }
    ensures stands { ClipStands text.now result }
    ensures in_text { IfOk result (InOrder text.now) }
{
    refusal::check_text(text)?;
    Ok(clip_parts(text))
}

// The scale of a clip argument, 1 beside a refusal.
pub fn clip_scale(text: &[u8]) -> u32
    ensures { result ≡ (parts_of text.now).scale }
{
    clip_at(text).map_or(1, |clip| clip.scale)
}

// The rest of a clip argument: that part of the text given itself, where it lies; beside a refusal an empty one.
pub fn clip_rest(text: &[u8]) -> &[u8]
    ensures { IsRest text.entry result }
{
    match clip_at(text) {
        Ok(clip) => &text[clip.from..clip.to],
        Err(_) => &text[..0],
    }
}

// A clip argument: the rest of the caller's own slice, and the scale.
#[derive(Clone, Copy, Drop)]
pub struct ClipArg<'a> {
    pub rest: &'a [u8],
    pub scale: u32,
}

// 01, src/drawing.rs: "`split_clip_arg` gives the scale (at least 1) and hands back the rest of the argument itself".
pub fn split_clip_arg(text: &[u8]) -> Result<ClipArg<'_>, Refusal>
    ensures { Splits text.entry result }
{
    let clip = clip_at(text)?;
    Ok(ClipArg {
        rest: &text[clip.from..clip.to],
        scale: clip.scale,
    })
}
