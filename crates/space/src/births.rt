//! Birth numbers of new tuples.

ghost use Rattle.std.specs.Prelude.{◌≡◌, ℕ, ◌^◌, ◌<◌, length, slice_index};
ghost use Rattle.space.specs.Births.{first_passing};
ghost use Rattle.space.specs.Counted.{has_counted_room};

/// How many pages there are. A birth number lies on the page of its remainder by this number.
pub const PAGES: usize = 256;

/// One page has at most so many tuples.
pub const MAX_ON_PAGE: u8 = 64;

/// A batch has at most 16 requests, and each takes at most as many births as there are pages.
pub(crate) const BIRTHS_A_BATCH: u64 = 16 * PAGES as u64;

/// The table of pages with no tuple.
pub fn empty_pages() -> [u8; PAGES]
    ensures none { (page : ℕ) → page < PAGES → slice_index result page ≡ 0 }
    ensures len { length result ≡ PAGES }
{
    [0; PAGES]
}

/// The least birth number from `next` on whose page has room, by how many tuples each page holds. Constant time.
pub fn next_birth(page_counts: &[u8], next: u64) -> u64
    requires pages { length page_counts.now ≡ PAGES }
    requires bound { next < 2 ^ 62 }
    ensures { result ≡ first_passing (has_counted_room page_counts.now) PAGES next }
{
    let end = next + PAGES as u64;
    for birth in next..end {
        if page_counts[(birth % PAGES as u64) as usize] < MAX_ON_PAGE {
            return birth;
        }
    }
    end
}
