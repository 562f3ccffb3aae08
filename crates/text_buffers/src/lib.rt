// A lent buffer that a text is written into, byte by byte. A text that is longer than the buffer is cut at the
// buffer's end, so that writing needs no leave: whoever lends enough room has the whole text (`wrote_room`,
// `added_room`).
#![tactic(auto)]

ghost use Rattle.std.specs.Prelude.{[], ◌∷◌};
ghost use Rattle.text_buffers.specs.Buffers.{Added};

// Writes one byte at the place `at`, where the buffer has one, and answers where the next byte goes.
pub fn add_byte(out: &mut [u8], at: usize, byte: u8) -> usize
    ensures { Added (byte ∷ []) out.old at out.new result }
{
    if out.len() <= at {
        return at;
    }
    out[at] = byte;
    at + 1
}
