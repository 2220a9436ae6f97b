// The exports of `leaves`, the leaf functions as C calls, for tests: each gives what the library's function of its name gives.
#![tactic(auto)]

ghost use Rattle.std.specs.Prelude.{◌≡◌, true, false, pos};
ghost use Rattle.std.specs.Float.{binary32};
ghost use Rattle.std.specs.Float.Ieee.{of_int, to_signed, to_unsigned};
ghost use Rattle.scan.specs.Scan.{pick};
ghost use Rattle.float.specs.Float.{max_zero, clamp, lerp, to_radians, in_reach_lem, round_away, round_byte, of_word};
ghost use Rattle.leaves.specs.Leaves.{leaf, numeral_leaf, i32_leaf, hex_leaf, alpha_leaf, colour_leaf, trim_leaf, closing_leaf, list_leaf, list_words, of, to, root_leaf, power_leaf, whole_leaf};

#[unsafe(no_mangle)]
pub extern "C" fn hannuvel_leaf_numeral(text: &[u8]) -> u64
    ensures { result ≡ leaf numeral_leaf text.now }
{
    leaves::hannuvel_leaf_numeral(text)
}

#[unsafe(no_mangle)]
pub extern "C" fn hannuvel_leaf_i32(text: &[u8]) -> u64
    ensures { result ≡ leaf i32_leaf text.now }
{
    leaves::hannuvel_leaf_i32(text)
}

#[unsafe(no_mangle)]
pub extern "C" fn hannuvel_leaf_hexadecimal(text: &[u8]) -> u64
    ensures { result ≡ leaf hex_leaf text.now }
{
    leaves::hannuvel_leaf_hexadecimal(text)
}

#[unsafe(no_mangle)]
pub extern "C" fn hannuvel_leaf_alpha(text: &[u8]) -> u64
    ensures { result ≡ leaf alpha_leaf text.now }
{
    leaves::hannuvel_leaf_alpha(text)
}

#[unsafe(no_mangle)]
pub extern "C" fn hannuvel_leaf_colour(text: &[u8]) -> u64
    ensures { result ≡ leaf colour_leaf text.now }
{
    leaves::hannuvel_leaf_colour(text)
}

// Where the text starts, << 32, and ends, less the blanks at both ends.
#[unsafe(no_mangle)]
pub extern "C" fn hannuvel_leaf_trim(text: &[u8]) -> u64
    ensures { result ≡ leaf trim_leaf text.now }
{
    leaves::hannuvel_leaf_trim(text)
}

// The place of the parenthesis that closes one open before the text.
#[unsafe(no_mangle)]
pub extern "C" fn hannuvel_leaf_parenthesis(text: &[u8]) -> u64
    ensures { result ≡ leaf closing_leaf text.now }
{
    leaves::hannuvel_leaf_parenthesis(text)
}

// The parts of a list of floats: 1 << 32 where all are numbers, and their count; out is lent eight words or more for the first seven and the place of the first that is too long.
#[unsafe(no_mangle)]
pub extern "C" fn hannuvel_leaf_floats(text: &[u8], out: &mut [u32]) -> u64
    ensures value { result ≡ leaf (list_leaf false) text.now }
    ensures out_after { out.new ≡ list_words false text.now out.old }
{
    leaves::hannuvel_leaf_floats(text, out)
}

// The same of a list of whole numbers.
#[unsafe(no_mangle)]
pub extern "C" fn hannuvel_leaf_ints(text: &[u8], out: &mut [u32]) -> u64
    ensures value { result ≡ leaf (list_leaf true) text.now }
    ensures out_after { out.new ≡ list_words true text.now out.old }
{
    leaves::hannuvel_leaf_ints(text, out)
}

#[unsafe(no_mangle)]
pub extern "C" fn hannuvel_leaf_root(a: u32) -> u32
    ensures { result ≡ root_leaf (of a) }
{
    leaves::hannuvel_leaf_root(a)
}

#[unsafe(no_mangle)]
pub extern "C" fn hannuvel_leaf_power(x: u32, a: u32) -> u32
    ensures { result ≡ power_leaf (of x) (of a) }
{
    leaves::hannuvel_leaf_power(x, a)
}

#[unsafe(no_mangle)]
pub extern "C" fn hannuvel_leaf_lerp(a: u32, b: u32, k: u32) -> u32
    ensures { result ≡ to (lerp (of a) (of b) (of k)) }
{
    leaves::hannuvel_leaf_lerp(a, b, k)
}

#[unsafe(no_mangle)]
pub extern "C" fn hannuvel_leaf_clamp(x: u32, lo: u32, hi: u32) -> u32
    ensures { result ≡ to (clamp (of x) (of lo) (of hi)) }
{
    leaves::hannuvel_leaf_clamp(x, lo, hi)
}

#[unsafe(no_mangle)]
pub extern "C" fn hannuvel_leaf_max_zero(x: u32) -> u32
    ensures { result ≡ to (max_zero (of x)) }
{
    leaves::hannuvel_leaf_max_zero(x)
}

#[unsafe(no_mangle)]
pub extern "C" fn hannuvel_leaf_radians(x: u32) -> u32
    ensures { result ≡ to (to_radians (of x)) }
{
    leaves::hannuvel_leaf_radians(x)
}

#[unsafe(no_mangle)]
pub extern "C" fn hannuvel_leaf_round(x: u32) -> u32
    ensures { result ≡ whole_leaf round_away (of x) }
{
    leaves::hannuvel_leaf_round(x)
}

#[unsafe(no_mangle)]
pub extern "C" fn hannuvel_leaf_cut(x: u32) -> u32
    ensures { result ≡ whole_leaf (to_signed 31) (of x) }
{
    leaves::hannuvel_leaf_cut(x)
}

#[unsafe(no_mangle)]
pub extern "C" fn hannuvel_leaf_cut_byte(x: u32) -> u32
    ensures { result ≡ to_unsigned 8 (of x) }
{
    leaves::hannuvel_leaf_cut_byte(x)
}

#[unsafe(no_mangle)]
pub extern "C" fn hannuvel_leaf_round_byte(x: u32) -> u32
    ensures { result ≡ round_byte (of x) }
{
    leaves::hannuvel_leaf_round_byte(x)
}

#[unsafe(no_mangle)]
pub extern "C" fn hannuvel_leaf_nearest_i32(w: u32) -> u32
    ensures { result ≡ to (of_int binary32 (of_word w)) }
{
    leaves::hannuvel_leaf_nearest_i32(w)
}

#[unsafe(no_mangle)]
pub extern "C" fn hannuvel_leaf_nearest_u32(w: u32) -> u32
    ensures { result ≡ to (of_int binary32 (pos w)) }
{
    leaves::hannuvel_leaf_nearest_u32(w)
}

#[unsafe(no_mangle)]
pub extern "C" fn hannuvel_leaf_in_reach(w: u32) -> u32
    ensures { result ≡ pick (in_reach_lem (of w)) 1 0 }
{
    leaves::hannuvel_leaf_in_reach(w)
}
