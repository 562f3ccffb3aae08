// What is decided about lines when input comes in blocks.
#![tactic(auto)]

ghost use Rattle.std.specs.Prelude.{◌≡◌};
ghost use Rattle.line_gather.specs.Gather.{Gathered, is_last, number_after};

use words::Limit;

// What a block brought to a line: how many of its bytes are there, one more than the buffer holds if it is too long;
// and where the next line starts in the block, if this one ended there.
#[derive(Clone, Copy)]
pub struct Got {
    pub count: usize,
    pub next: Option<usize>,
}

// Gathers a line of which `have` bytes are in the buffer from the block, where it goes on at `from`.
#[tactic(auto, using(text_fields::proofs::FieldLaws::end_from_from, text_fields::proofs::FieldLaws::end_from_within))]
pub fn gather(line: &mut [u8], have: usize, block: &[u8], from: usize) -> Got
    ensures { Gathered line.old have block.now from line.new result }
{
    let from = from.min(block.len());
    let end = text_fields::run_end(block, from, b'\n');
    let count = have.saturating_add(end - from).min(line.len() + 1);
    text_writers::add_bytes(line, have, &block[from..end]);
    let next = if end < block.len() {
        Some(end + 1)
    } else {
        None
    };
    Got { count, next }
}

// Whether a last line without LF is taken, of which `have` bytes are there.
pub fn is_last(have: usize) -> bool
    ensures { result ≡ is_last have }
{
    have != 0
}

// The number of the line after line n, if there is one; the first line comes after 0.
pub fn number_after(n: u32) -> Option<u32>
    ensures { result ≡ number_after n }
{
    if n < Limit::LINES { Some(n + 1) } else { None }
}
