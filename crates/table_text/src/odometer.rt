//! The windows in order, one at a time. The next one comes from the identifiers that are not in
//! use.

ghost use Rattle.std.specs.Prelude.{◌≡◌, ℕ, ◌+◌, ◌≤◌, length, take};
ghost use Rattle.win_index.specs.Windows.{IsWindow};
ghost use Rattle.win_index.specs.declared.limits.TheConstants.{MAX_IDS};
ghost use Rattle.table_text.specs.Orders.{IsOrder, IsStep, ArePlaces, IsPlaced, place_of};

use crate::line_prefix::LinePrefix;
use crate::piece::Piece;
use win_index::{MAX_IDS, MAX_WINDOW_LEN, Shape, place_among_unused};

// Moves the last identifier of the first `last + 1`, the largest that those before it lack, to the
// end. It is not inlined, so that most calls of `next_front` need few registers.
#[inline(never)]
fn carry(order: &mut [u32], last: usize)
    requires order { IsOrder (last + 1) (length order.old) order.old }
    requires largest { length order.old ≤ place_of last order.old }
    ensures { IsOrder last (length order.old) order.new × (take last order.new ≡ take last order.old) }
{
    order[last..].rotate_left(1);
}

// Replaces the first `len` identifiers of an order by the window after them, or the last window by
// the first, and their places. Returns the number of identifiers at its start that are the same.
fn next_front(order: &mut [u32], places: &mut [u16], len: usize) -> usize
    requires { IsPlaced len order.old places.old }
    ensures step { IsStep len (length order.old) order.old order.new }
    ensures places { ArePlaces len order.new places.new }
    ensures few { result ≤ len }
    ensures kept { take result order.new ≡ take result order.old }
{
    if len == 0 {
        return 0;
    }
    let last = len - 1;
    let place = places[last];
    if (place as usize) < order.len() {
        order.swap(last, place as usize);
        places[last] = place + 1;
        return last;
    }
    carry(order, last);
    let kept = next_front(order, places, last);
    places[last] = len as u16;
    kept
}

// Writes the places of the identifiers of a window.
fn write_places(places: &mut [u16], window: &[u32])
    requires len { length window.now ≤ length places.old }
    requires window { (ids : ℕ) × (ids ≤ MAX_IDS) × IsWindow (length window.now) ids window.now }
    ensures { ArePlaces (length window.now) window.now places.new }
{
    for index in 0..window.len() {
        let place = place_among_unused(&window[..index], window[index]);
        places[index] = (index + 1) as u16 + place as u16;
    }
}

// Writes the identifiers that the first `front` lack behind them, in rising order.
fn append_unused(order: &mut [u32], front: usize)
    requires ids { length order.old ≤ MAX_IDS }
    requires front { IsWindow front (length order.old) (take front order.old) }
    ensures order { IsOrder front (length order.old) order.new }
    ensures kept { take front order.new ≡ take front order.old }
{
    let ids = order.len() as u32;
    let mut filled = front;
    for id in 0..ids {
        if !order[..front].contains(&id) {
            order[filled] = id;
            filled += 1;
        }
    }
}

// Writes an order of `ids` identifiers that begins with a window, in the first cells.
fn write_order(order: &mut [u32], ids: usize, window: &[u32])
    requires ids { (ids ≤ length order.old) × (ids ≤ MAX_IDS) }
    requires window { IsWindow (length window.now) ids window.now }
    ensures order { IsOrder (length window.now) ids (take ids order.new) }
    ensures window { take (length window.now) (take ids order.new) ≡ window.now }
{
    let order = &mut order[..ids];
    order[..window.len()].copy_from_slice(window);
    append_unused(order, window.len());
}

// A window, as an odometer shows it, and the text of its prefix, all identifiers but the last.
#[derive(Drop)]
pub(crate) struct Odometer {
    // All identifiers, below `ids`: those of the prefix, and then the others, in rising order.
    order: [u32; MAX_IDS as usize],
    ids: usize,
    // For each identifier of the prefix, the place of the next one that stands there behind the same
    // identifiers: `ids` if there is none.
    places: [u16; MAX_WINDOW_LEN],
    // The number of identifiers of the prefix.
    front: usize,
    // The index of the window's last identifier.
    last: usize,
    pub(crate) prefix: LinePrefix,
}

impl Odometer {
    ghost use Rattle.std.specs.Prelude.{◌≡◌, ◌+◌, ◌*◌, ◌<◌, ◌≤◌, length, take, drop, All};
    ghost use Rattle.win_index.specs.declared.limits.TheConstants.{MAX_IDS, MAX_WINDOW_LEN};
    ghost use Rattle.win_index.specs.Windows.{windows, IsWindow};
    ghost use Rattle.table_text.specs.Pieces.{id_text, AreTexts};
    ghost use Rattle.table_text.specs.Odometers.{IsOdometer, ShowsWindow, ShowsNumber, IsAdvanced, window_of, last_of};

    // Shows the window of the last level with this number.
    pub(crate) fn at(shape: Shape, number: u32, pieces: &[Piece]) -> Odometer
        requires number { number < length (windows (2 * shape.rounds + 1) shape.ids) }
        requires pieces { AreTexts id_text pieces.now × (length pieces.now ≡ shape.ids) }
        ensures { ShowsNumber shape.rounds shape.ids number result }
    {
        let level = shape.rounds();
        let mut cells = [0; MAX_WINDOW_LEN];
        let window = &mut cells[..2 * level as usize + 1];
        shape.window(level, number, window);
        Odometer::of_window(window, pieces)
    }

    // Shows a window. There is a piece for each identifier.
    fn of_window(window: &[u32], pieces: &[Piece]) -> Odometer
        requires len { (0 < length window.now) × (length window.now ≤ MAX_WINDOW_LEN) }
        requires window { IsWindow (length window.now) (length pieces.now) window.now }
        requires pieces { AreTexts id_text pieces.now × (length pieces.now ≤ MAX_IDS) }
        ensures { ShowsWindow (length pieces.now) window.now result }
    {
        let front = window.len() - 1;
        let shared = &window[..front];
        let last = front + place_among_unused(shared, window[front]) as usize;
        let mut order = [0; MAX_IDS as usize];
        write_order(&mut order, pieces.len(), shared);
        let mut places = [0; MAX_WINDOW_LEN];
        write_places(&mut places, shared);
        let mut prefix = LinePrefix::empty();
        prefix.show(pieces, shared, 0);
        Odometer {
            order,
            ids: pieces.len(),
            places,
            front,
            last,
            prefix,
        }
    }

    // Returns the number of windows of the bucket from this one on.
    pub(crate) fn left(&self) -> u32
        requires { IsOdometer self.now }
        ensures count { self.now.last + result ≡ self.now.ids }
        ensures some { 0 < result }
    {
        (self.ids - self.last) as u32
    }

    // Returns the last identifiers of so many windows of the bucket from this one on.
    pub(crate) fn last_ids(&self, count: u32) -> &[u32]
        requires is { IsOdometer self.now }
        requires within { self.now.last + count ≤ self.now.ids }
        ensures ids { result.now ≡ take count (drop self.now.last self.now.order) }
        ensures below { All (λ id. id < self.now.ids) result.now }
    {
        &self.order[self.last..self.last + count as usize]
    }

    // Shows the window that is so many later, if there is one. Those before it are of the bucket.
    pub(crate) fn advance_by(&mut self, count: u32, pieces: &[Piece])
        requires is { IsOdometer self.old }
        requires within { (0 < count) × (self.old.last + count ≤ self.old.ids) }
        requires pieces { AreTexts id_text pieces.now × (length pieces.now ≡ self.old.ids) }
        ensures { IsAdvanced count self.old self.new }
    {
        self.last += count as usize - 1;
        self.advance(pieces);
    }

    // Shows the next window, if there is one.
    #[inline(always)]
    pub(crate) fn advance(&mut self, pieces: &[Piece])
        requires is { IsOdometer self.old }
        requires pieces { AreTexts id_text pieces.now × (length pieces.now ≡ self.old.ids) }
        ensures { IsAdvanced 1 self.old self.new }
    {
        if self.last + 1 < self.ids {
            self.last += 1;
        } else {
            self.next_bucket(pieces);
        }
    }

    // Shows the first window with the next prefix, if there is one, after the last one with a
    // prefix.
    fn next_bucket(&mut self, pieces: &[Piece])
        requires is { IsOdometer self.old × (self.old.ids ≤ self.old.last + 1) }
        requires pieces { AreTexts id_text pieces.now × (length pieces.now ≡ self.old.ids) }
        ensures { IsAdvanced 1 self.old self.new }
    {
        let ids = self.ids;
        let front = self.front;
        let mut places = self.places;
        let kept = next_front(&mut self.order[..ids], &mut places, front);
        self.places = places;
        let shared = &self.order[..front];
        self.prefix.show(pieces, shared, kept);
        self.last = front;
    }

    // Returns the last identifier of the window.
    pub(crate) fn last_id(&self) -> u32
        requires { IsOdometer self.now }
        ensures last { result ≡ last_of self.now }
        ensures below { result < self.now.ids }
    {
        self.order[self.last]
    }

    // Returns the number of identifiers of the window, which are written to the first cells.
    pub(crate) fn write_window(&self, cells: &mut [u32; MAX_WINDOW_LEN]) -> usize
        requires { IsOdometer self.now }
        ensures len { result ≡ self.now.front + 1 }
        ensures window { take result cells.new ≡ window_of self.now }
    {
        cells[..self.front].copy_from_slice(&self.order[..self.front]);
        cells[self.front] = self.order[self.last];
        self.front + 1
    }
}
