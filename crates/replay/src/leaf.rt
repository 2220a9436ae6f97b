// The small functions, each by its letter.
use std::io;

// Writes the answer of a leaf that is lent nothing.
fn write(rt: &impl Print, r: u64) -> io::Result<()> {
    crate::write(rt, r, &[])
}

// A leaf of a text that writes eight words.
fn list<F: FnOnce(&[u8], &mut [u32]) -> u64>(
    rt: &impl Print,
    leaf: F,
    text: &[u8],
) -> io::Result<()>
    requires { F.IsAlwaysCallable leaf }
{
    let mut list = [stored::LENT; 8];
    let r = leaf(text, &mut list);
    crate::write(rt, r, &list)
}

// Leaves of a text.
fn of_text(rt: &impl Print, letter: u8, text: &[u8]) -> io::Result<()> {
    match letter {
        b'F' => list(rt, leaves::hannuvel_leaf_floats, text),
        b'G' => list(rt, leaves::hannuvel_leaf_ints, text),
        b'N' => write(rt, leaves::hannuvel_leaf_numeral(text)),
        b'I' => write(rt, leaves::hannuvel_leaf_i32(text)),
        b'H' => write(rt, leaves::hannuvel_leaf_hexadecimal(text)),
        b'A' => write(rt, leaves::hannuvel_leaf_alpha(text)),
        b'C' => write(rt, leaves::hannuvel_leaf_colour(text)),
        b'T' => write(rt, leaves::hannuvel_leaf_trim(text)),
        b'P' => write(rt, leaves::hannuvel_leaf_parenthesis(text)),
        _ => crate::write_unknown(rt),
    }
}

// Leaves of one number.
fn of_one(rt: &impl Print, letter: u8, a: u32) -> io::Result<()> {
    match letter {
        b'r' => write(rt, leaves::hannuvel_leaf_root(a) as u64),
        b'm' => write(rt, leaves::hannuvel_leaf_max_zero(a) as u64),
        b'd' => write(rt, leaves::hannuvel_leaf_radians(a) as u64),
        b'o' => write(rt, leaves::hannuvel_leaf_round(a) as u64),
        b't' => write(rt, leaves::hannuvel_leaf_cut(a) as u64),
        b'y' => write(rt, leaves::hannuvel_leaf_cut_byte(a) as u64),
        b'b' => write(rt, leaves::hannuvel_leaf_round_byte(a) as u64),
        b'i' => write(rt, leaves::hannuvel_leaf_nearest_i32(a) as u64),
        b'u' => write(rt, leaves::hannuvel_leaf_nearest_u32(a) as u64),
        b'e' => write(rt, leaves::hannuvel_leaf_in_reach(a) as u64),
        _ => crate::write_unknown(rt),
    }
}

// Leaves of two numbers.
fn of_two(rt: &impl Print, letter: u8, a: u32, b: u32) -> io::Result<()> {
    match letter {
        b'p' => write(rt, leaves::hannuvel_leaf_power(a, b) as u64),
        _ => crate::write_unknown(rt),
    }
}

// Leaves of three numbers.
fn of_three(rt: &impl Print, letter: u8, a: u32, b: u32, c: u32) -> io::Result<()> {
    match letter {
        b'l' => write(rt, leaves::hannuvel_leaf_lerp(a, b, c) as u64),
        b'c' => write(rt, leaves::hannuvel_leaf_clamp(a, b, c) as u64),
        _ => crate::write_unknown(rt),
    }
}

// The answer of the leaf of that letter.
pub(crate) fn answer(rt: &impl Print, letter: u8, words: &[u32], text: &[u8]) -> io::Result<()> {
    match words {
        [] => of_text(rt, letter, text),
        [a] => of_one(rt, letter, *a),
        [a, b] => of_two(rt, letter, *a, *b),
        [a, b, c] => of_three(rt, letter, *a, *b, *c),
        _ => crate::write_unknown(rt),
    }
}
