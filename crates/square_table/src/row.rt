//! The rows of a table, each of 16 bytes.
ghost use Rattle.std.specs.Prelude.{◌≡◌, ◌<◌, length, map, slice_set, replicate, All, IfNone, IfSome};
ghost use Rattle.square_table.specs.Rows.{number_range, note_range, number_in, part_in, kids_in, note_in, kids_of};

// The numbers of squares are below this, as they take the lower 25 bits of a word.
const NUMBERS: u32 = 1 << 25;

// The upper 7 bits of a word are a part of the note.
const PARTS: u32 = 1 << 7;

/// A square's quadrants by their numbers, and a number that is noted of it, or 0.
///
/// Each word has the number of a quadrant in its lower 25 bits, and above it 7 bits of what is noted,
/// the lowest first: so both are read with one line of the cache.
#[derive(Clone, Copy)]
pub struct Row {
    words: [u32; 4],
}

// A word of a number and what stands above it.
fn word(number: u32, part: u32) -> u32
    requires number { number < number_range }
    requires part { part < 128 }
    ensures number { number_in result ≡ number }
    ensures part { part_in result ≡ part }
{
    part * NUMBERS + number
}

impl Row {
    /// A row of these quadrants, of which nothing is noted. None where a number is too large for one.
    pub fn new(kids: [u32; 4]) -> Option<Row>
        ensures kids { IfSome result (λ row. kids_in row ≡ kids) }
        ensures note { IfSome result (λ row. note_in row ≡ 0) }
        ensures none { IfNone result (All (λ n. n < number_range) kids → ⊥) }
    {
        let [nw, ne, sw, se] = kids;
        if nw >= NUMBERS || ne >= NUMBERS || sw >= NUMBERS || se >= NUMBERS {
            return None;
        }
        Some(Row { words: kids })
    }

    /// The numbers of the quadrants.
    pub fn kids(self) -> [u32; 4]
        ensures { result ≡ kids_in self }
    {
        let [nw, ne, sw, se] = self.words;
        [nw % NUMBERS, ne % NUMBERS, sw % NUMBERS, se % NUMBERS]
    }

    /// What is noted.
    pub fn note(self) -> u32
        ensures { result ≡ note_in self }
    {
        let [nw, ne, sw, se] = self.words;
        nw / NUMBERS + PARTS * (ne / NUMBERS + PARTS * (sw / NUMBERS + PARTS * (se / NUMBERS)))
    }

    /// The row of which this is noted instead.
    pub fn with_note(self, note: u32) -> Row
        requires { note < note_range }
        ensures kids { kids_in result ≡ kids_in self }
        ensures note { note_in result ≡ note }
    {
        let [nw, ne, sw, se] = self.words;
        let second = note / PARTS;
        let third = second / PARTS;
        Row {
            words: [
                word(nw % NUMBERS, note % PARTS),
                word(ne % NUMBERS, second % PARTS),
                word(sw % NUMBERS, third % PARTS),
                word(se % NUMBERS, third / PARTS),
            ],
        }
    }
}

/// Notes this in the row at a place.
pub fn note(rows: &mut [Row], place: usize, value: u32)
    requires there { place < length rows.old }
    requires few { value < note_range }
    ensures kids { kids_of rows.new ≡ kids_of rows.old }
    ensures notes { map note_in rows.new ≡ slice_set (map note_in rows.old) place value }
{
    rows[place] = rows[place].with_note(value);
}

/// Notes nothing in all of them.
pub fn forget(rows: &mut [Row])
    ensures kids { kids_of rows.new ≡ kids_of rows.old }
    ensures none { map note_in rows.new ≡ replicate (length rows.old) 0 }
{
    for row in rows.iter_mut() {
        *row = row.with_note(0);
    }
}
