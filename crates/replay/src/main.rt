// Replays a stored list: each line of standard input names a call and gives its words and its text, and standard output has a line for each, with the result and every word that was lent.
#![tactic(auto)]

use std::io::{self, Read};

mod leaf;

// Writes the answer to a line: the result, then the words that were lent, as the call left them.
fn write(rt: &impl Print, res: u64, lent: &[u32]) -> io::Result<()> {
    print!(rt; "{res:016x}")?;
    for w in lent {
        print!(rt; " {w:08x}")?;
    }
    println!(rt; "")
}

// Writes the answer to a line of another form.
fn write_unknown(rt: &impl Print) -> io::Result<()> {
    println!(rt; "?")
}

// A block by either reading call, on the number of table words and a text.
fn block<F: FnOnce(&[u8], &mut [u32]) -> u64>(
    rt: &impl Print,
    read: F,
    words: &[u32],
    text: &[u8],
    lent: &mut [u32],
) -> io::Result<()>
    requires { F.IsAlwaysCallable read }
{
    let [n] = words else {
        return write_unknown(rt);
    };
    let n = stored::part(*n, lent.len());
    let table = &mut lent[..n];
    let r = read(text, table);
    write(rt, r, table)
}

// A drawing, on its scale's exponent, the number of path words and a text.
fn drawing(rt: &impl Print, words: &[u32], text: &[u8], lent: &mut [u32]) -> io::Result<()> {
    let [exponent, n] = words else {
        return write_unknown(rt);
    };
    let n = stored::part(*n, lent.len());
    let path = &mut lent[..n];
    let r = hannuvel::hannuvel_parse_drawing(text, *exponent, path);
    write(rt, r, path)
}

// A clip argument.
fn clip(rt: &impl Print, text: &[u8]) -> io::Result<()> {
    write(rt, hannuvel::hannuvel_split_clip_arg(text), &[])
}

// The state of a table's tags, on an instant, a duration and the table's words.
fn evaluate(rt: &impl Print, words: &[u32]) -> io::Result<()> {
    let [t, duration, table @ ..] = words else {
        return write_unknown(rt);
    };
    let mut state = [stored::LENT; 92];
    let r = hannuvel::hannuvel_evaluate_at(
        table,
        t.cast_signed(),
        duration.cast_signed(),
        &mut state,
    );
    write(rt, r, &state)
}

// The next mark of a table's tags, on an instant, a duration and the table's words.
fn next_mark(rt: &impl Print, words: &[u32]) -> io::Result<()> {
    let [t, duration, table @ ..] = words else {
        return write_unknown(rt);
    };
    let r = hannuvel::hannuvel_next_mark(table, t.cast_signed(), duration.cast_signed());
    write(rt, r, &[])
}

// The karaoke spans of a table's tags, on the number of span words and the table's words.
fn karaoke_spans(rt: &impl Print, words: &[u32], lent: &mut [u32]) -> io::Result<()> {
    let [n, table @ ..] = words else {
        return write_unknown(rt);
    };
    let n = stored::part(*n, lent.len());
    let spans = &mut lent[..n];
    let r = hannuvel::hannuvel_karaoke_spans(table, spans);
    write(rt, r, spans)
}

// Progress, on a span's start and end and an instant.
fn progress(rt: &impl Print, words: &[u32]) -> io::Result<()> {
    let [start, end, t] = words else {
        return write_unknown(rt);
    };
    write(
        rt,
        hannuvel::hannuvel_progress(*start, *end, t.cast_signed()),
        &[],
    )
}

// The style in force, on the number of bytes of the block, an instant, a duration and a table's words; the text is the block and then the own name.
fn style_in_force(rt: &impl Print, words: &[u32], text: &[u8]) -> io::Result<()> {
    let [n, t, duration, table @ ..] = words else {
        return write_unknown(rt);
    };
    let (block, own) = text.split_at(stored::part(*n, text.len()));
    let r = hannuvel::hannuvel_style_in_force(
        table,
        t.cast_signed(),
        duration.cast_signed(),
        block,
        own,
    );
    write(rt, r, &[])
}

// Makes a call and writes its answer.
fn answer(
    rt: &impl Print,
    call: u8,
    leaf: u8,
    words: &[u32],
    text: &[u8],
    lent: &mut [u32],
) -> io::Result<()> {
    match call {
        b'L' => leaf::answer(rt, leaf, words, text),
        b'O' => block(rt, hannuvel::hannuvel_parse_overrides, words, text, lent),
        b'R' => block(rt, hannuvel::hannuvel_parse_raw_block, words, text, lent),
        b'D' => drawing(rt, words, text, lent),
        b'C' => clip(rt, text),
        b'E' => evaluate(rt, words),
        b'M' => next_mark(rt, words),
        b'K' => karaoke_spans(rt, words, lent),
        b'G' => progress(rt, words),
        b'S' => style_in_force(rt, words, text),
        _ => write_unknown(rt),
    }
}

fn answer_line(rt: &impl Print, line: &[u8]) -> io::Result<()> {
    let mut words = stored::words_buffer();
    let mut text = stored::text_buffer();
    let mut lent = stored::lent_buffer();
    let parsed = stored::parse(line, &mut words, &mut text);
    let w = parsed.words;
    let n = parsed.bytes;
    answer(
        rt,
        parsed.call,
        parsed.leaf,
        &words[..w],
        &text[..n],
        &mut lent,
    )
}

// Answers the lines of standard input, up to 2 ^ 64.
fn replay<R: Read>(rt: &impl Print, reader: &mut R, line: &mut [u8]) -> io::Result<()> {
    for _ in 0..u64::MAX {
        let n = stored::read_line(reader, line);
        if n == 0 {
            break;
        }
        answer_line(rt, &line[..n])?;
    }
    Ok(())
}

fn main(rt: HostRuntime) -> io::Result<()> {
    let mut line = stored::line_buffer();
    let mut reader = rt.reader();
    replay(&rt, &mut reader, &mut line)
}
