//! The channels of a table behind its first one.

ghost use Rattle.devices.specs.Output.{buffered_text};
ghost use Rattle.json_reports.specs.TableTexts.{entry_text};
ghost use Rattle.std.specs.List.{flat_map};
ghost use Rattle.std.specs.Prelude.{◌≡◌, ◌+◌, ◌*◌, ◌≤◌, ◌++◌, length, take, drop};

use devices::buffered::Buffered;
use devices::chunk::{ToBytes, write_buffered};
use itoa::write_digits;

// The maximum length of the text of a channel: a comma and five digits.
const ENTRY_LEN: usize = 6;

// The space for a channel. A text is copied with the bytes behind it, so that each copy has this
// length.
pub(crate) const ROOM: usize = 8;

// These channels, each after a comma.
#[derive(Clone, Copy)]
pub(crate) struct Entries<'a> {
    pub(crate) entries: &'a [u16],
}

impl ToBytes for Entries<'_> {
    ghost use Rattle.json_reports.specs.declared.entries.TheConstants.{ROOM};

    ghost text = { λ these. flat_map entry_text these.entries.now };

    ghost most = { λ these. length these.entries.now * ROOM };

    ghost room = { λ these. length these.entries.now * ROOM };

    #[inline(always)]
    fn store(&self, bytes: &mut [u8], start: usize) -> usize {
        let mut end = start;
        for entry in self.entries {
            end = store_entry(bytes, end, *entry);
        }
        end
    }
}

// Stores a comma and a channel from index `start` on, and returns the index of their end.
#[inline(always)]
fn store_entry(bytes: &mut [u8], start: usize, entry: u16) -> usize
    requires { start + ROOM ≤ length bytes.old }
    ensures end { (start ≤ result) × (result ≤ start + ROOM) }
    ensures len { length bytes.new ≡ length bytes.old }
    ensures text { take result bytes.new ≡ take start bytes.old ++ entry_text entry }
{
    let mut cells = [0; ENTRY_LEN + ROOM];
    let first = write_entry(entry, &mut cells);
    let part = Buffered {
        buffer: &cells[first..first + ROOM],
        len: ENTRY_LEN - first,
    };
    write_buffered(bytes, start, part)
}

// Writes a comma and a channel so that they end at index `ENTRY_LEN`, and returns where they start.
#[inline(always)]
fn write_entry(entry: u16, cells: &mut [u8; ENTRY_LEN + ROOM]) -> usize
    ensures start { result + length (entry_text entry) ≡ ENTRY_LEN }
    ensures text { drop result cells.new ≡ entry_text entry ++ drop ENTRY_LEN cells.old }
{
    let start = write_digits(u64::from(entry), cells, ENTRY_LEN);
    cells[start - 1] = b',';
    start - 1
}
