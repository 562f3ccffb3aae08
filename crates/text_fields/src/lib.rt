// Fields of a line, parted by tabs. A place in a line of n bytes is 0 to n + 1: a field may start at n, and is then
// empty (a line that ends in a tab has such a last field); n + 1 is the start of no field, and says that there are no
// more.
#![tactic(auto)]

ghost use Rattle.std.specs.Prelude.{◌≡◌, ◌+◌, ◌<◌, ◌^◌};
ghost use Rattle.text_fields.specs.Fields.{end_from, field_end, next_start, FieldOf, bad_byte};

// Where a text goes bad: the place of the first byte with which it stops being the start of a good one; the text's
// length, if only its end came too early.
#[derive(Clone, Copy)]
pub struct BadByte {
    pub place: usize,
}

impl BadByte {
    // The same byte of a larger text, in which this one starts at `start`.
    pub fn behind(self, start: usize) -> BadByte
        requires { start + self.place < 2 ^ 64 }
        ensures { result ≡ bad_byte (start + self.place) }
    {
        BadByte {
            place: start + self.place,
        }
    }
}

// Where the bytes from `at` on come to the byte `stop`, or to the end.
pub fn run_end(bytes: &[u8], at: usize, stop: u8) -> usize
    ensures { result ≡ end_from stop bytes.now at }
{
    // Tried with `position` of an iterator: lines of 2,048 bytes took a fifth longer; with `enumerate`: lines of 20,000
    // bytes took two fifths longer.
    for end in at..bytes.len() {
        if bytes[end] == stop {
            return end;
        }
    }
    at.max(bytes.len())
}

// Where the field that starts at `at` ends: at the next tab, or at the line's end.
pub fn field_end(line: &[u8], at: usize) -> usize
    ensures { result ≡ field_end line.now at }
{
    run_end(line, at, b'\t')
}

// The field that starts at `at`, as that part of the line. Past the line there is none, and the part is empty.
pub fn field(line: &[u8], at: usize) -> &[u8]
    ensures { FieldOf line.entry at result }
{
    if line.len() < at {
        return &line[0..0];
    }
    let end = field_end(line, at);
    &line[at..end]
}

// Where the field after the one at `at` starts; the line's length and one more, if that one is the last.
pub fn next_start(line: &[u8], at: usize) -> usize
    ensures { result ≡ next_start line.now at }
{
    if at <= line.len() {
        return field_end(line, at) + 1;
    }
    at
}
