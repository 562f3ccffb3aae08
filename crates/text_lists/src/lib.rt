// The promise fields of async, read from the rest of the line after the child into lent words. Lent one word for two
// bytes, all of them find room; of a longer list those without room are counted and not kept.
#![tactic(auto)]

ghost use Rattle.std.specs.Prelude.{drop};
ghost use Rattle.text_lists.specs.Lists.{Listing};

use table_access::put;
use text_fields::BadByte;
use text_records::number_at;

// How many entries the list has that is the whole of `rest`: nothing, or a tab and a field for each entry. `at` is
// where the next one starts.
pub fn list(rest: &[u8], out: &mut [u16]) -> Result<usize, BadByte>
    ensures { Listing rest.now out.old out.new result }
{
    let mut at = 1;
    let mut count = 0;
    // A `while`, and no iterator: each turn goes on where the reader of the number says.
    while at <= rest.len() {
        let (entry, next) = number_at(rest, at)?;
        put(out, count, entry);
        count += 1;
        at = next;
    }
    Ok(count)
}

// The list behind the child, whose field ends at `at`: that part of the line is handed on.
pub fn list_after(line: &[u8], at: usize, out: &mut [u16]) -> Result<usize, BadByte>
    ensures { Listing (drop at line.now) out.old out.new result }
{
    match line.get(at..) {
        Some(rest) => list(rest, out),
        None => Ok(0),
    }
}
