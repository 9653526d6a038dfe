//! Lists of distinct numbers below `ids`, of any length, in lexicographic order: arrangements.
ghost use Rattle.std.specs.Prelude.{◌≡◌, ◌≢◌, ℕ, ◌+◌, ◌-◌, ◌^◌, ◌<◌, ◌≤◌, ◌↔◌, IsTrue, IfSome, None, Some, List, not};
ghost use Rattle.std.specs.Prelude.{find, length, take, slice_get, slice_index, nat_lt, count_by, AllPairs};
ghost use Rattle.std.specs.Bool.{OnTrue, OnFalse};
ghost use Rattle.std.specs.List.{range_with_len};
ghost use Rattle.win_index.specs.Windows.{is_used, unused, windows, number_of, IsWindow};
ghost use Rattle.win_index.specs.Buckets.{IsBucketStart, IsReplacedByBucket};
ghost use Rattle.win_index.specs.Successor.{IsNext, IsReplaced};

// The lists of one length, in order. There are fewer than 2^64 of them, and of each smaller length.
#[derive(Clone, Copy)]
pub(crate) struct Arrangements {
    pub(crate) ids: u32,
    pub(crate) len: usize,
    pub(crate) ghost short: { len ≤ ids },
    pub(crate) ghost few: { (k : ℕ) → k ≤ len → length (windows k ids) < 2 ^ 64 },
}

impl Arrangements {
    // Returns the number of lists.
    #[tactic(auto, using(crate::proofs::Sizes::counts))]
    pub(crate) fn count(self) -> u64
        ensures value { result ≡ length (windows self.len self.ids) }
        ensures some { 0 < result }
    {
        let Arrangements { ids, len } = self;
        let mut count = 1;
        for place in 0..len {
            count *= u64::from(ids) - place as u64;
        }
        count
    }

    // Returns the number of a list, which must be one of these.
    pub(crate) fn number(self, list: &[u32]) -> u64
        requires { IsWindow self.len self.ids list.now }
        ensures item { slice_get (windows self.len self.ids) result ≡ Some list.now }
        ensures below { result < length (windows self.len self.ids) }
    {
        let Arrangements { ids, len: _ } = self;
        let mut number = 0;
        for (place, x) in list.iter().enumerate() {
            let free = u64::from(ids) - place as u64;
            let digit = unused_below(&list[..place], *x);
            number = number * free + digit;
        }
        number
    }

    // Returns the number of a list, or `None` if it is not one of these.
    pub(crate) fn find(self, list: &[u32]) -> Option<u64>
        ensures number { result ≡ number_of self.len self.ids list.now }
        ensures below { IfSome result (λ n. n < length (windows self.len self.ids)) }
    {
        let Arrangements { ids, len } = self;
        if list.len() == len && is_window(ids, list) {
            Some(self.number(list))
        } else {
            None
        }
    }

    // Writes the list with this number.
    pub(crate) fn write(self, number: u64, out: &mut [u32])
        requires below { number < length (windows self.len self.ids) }
        requires room { length out.old ≡ self.len }
        ensures item { slice_get (windows self.len self.ids) number ≡ Some out.new }
        ensures window { IsWindow self.len self.ids out.new }
    {
        write_list(self.ids, number, out, self.len);
    }

    // Replaces the list by the next one, or returns `false` if it is the last. Most often only the last
    // number changes, which needs no recursive call.
    pub(crate) fn write_next(self, list: &mut [u32]) -> bool
        requires { IsWindow self.len self.ids list.old }
        ensures { IsReplaced self.len self.ids result list.old list.new }
    {
        let Arrangements { ids, len } = self;
        if len > 0 && write_next_last(ids, list, len) {
            return true;
        }
        write_next(ids, list, len)
    }

    // Replaces the list by the next one with another prefix, which differs before the last number,
    // or returns `false` if there is none.
    pub(crate) fn write_next_bucket(self, list: &mut [u32]) -> bool
        requires some { 1 ≤ self.len }
        requires window { IsWindow self.len self.ids list.old }
        ensures { IsReplacedByBucket self.len self.ids result list.old list.new }
    {
        let Arrangements { ids, len } = self;
        let last = len - 1;
        if !write_next(ids, list, last) {
            return false;
        }
        let least = nth_unused(ids, &list[..last], 0);
        list[last] = least;
        true
    }

    // Returns the number of the first list with this prefix, among the lists that are one number
    // longer.
    pub(crate) fn bucket_start(self, front: &[u32]) -> u64
        requires front { IsWindow self.len self.ids front.now }
        requires longer { self.len < self.ids }
        requires few { length (windows (self.len + 1) self.ids) < 2 ^ 64 }
        ensures { IsBucketStart self.len self.ids front.now result }
    {
        let Arrangements { ids, len } = self;
        self.number(front) * (u64::from(ids) - len as u64)
    }
}

// Returns whether there are at most `most` lists of this length.
#[tactic(auto, using(crate::proofs::Sizes::counts))]
pub(crate) fn are_few(ids: u32, len: usize, most: u32) -> bool
    requires { len ≤ ids }
    ensures { IsTrue result ↔ (length (windows len ids) ≤ most) }
{
    let most = u64::from(most);
    let mut count = 1;
    for place in 0..len {
        count *= u64::from(ids) - place as u64;
        if count > most {
            return false;
        }
    }
    count <= most
}

// Returns whether the list has distinct numbers below `ids`.
fn is_window(ids: u32, list: &[u32]) -> bool
    ensures { IsTrue result ↔ IsWindow (length list.now) ids list.now }
{
    for (place, x) in list.iter().enumerate() {
        if *x >= ids || list[..place].contains(x) {
            return false;
        }
    }
    true
}

// Returns the number of elements below `x`. The tests are added up, since branches on them would
// often be mispredicted.
fn smaller_before(before: &[u32], x: u32) -> usize
    ensures { result ≡ count_by (λ y. nat_lt y x) before.now }
{
    let mut count = 0;
    for i in 0..before.len() {
        count += usize::from(before[i] < x);
    }
    count
}

// Returns the number of values below `x` that are not in `before`, whose elements are distinct.
#[tactic(auto, using(crate::proofs::Unused::unused_below))]
pub(crate) fn unused_below(before: &[u32], x: u32) -> u64
    requires { AllPairs (λ a b. a ≢ b) before.now }
    ensures { result ≡ length (unused x before.now) }
{
    u64::from(x) - smaller_before(before, x) as u64
}

// Returns the least value from `low` on that is below `ids` and not in `before`.
fn least_unused(ids: u32, before: &[u32], low: u32) -> Option<u32>
    ensures { result ≡ find (λ x. not (is_used before.now x)) (range_with_len low (ids - low)) }
{
    (low..ids).find(|x| !stands_in(before, *x))
}

// Returns whether the list contains the value; lists are short.
fn stands_in(list: &[u32], x: u32) -> bool
    ensures { result ≡ is_used list.now x }
{
    list.iter().any(|y| *y == x)
}

// Returns the value at this index among those below `ids` that are not in `before`, whose elements
// are distinct.
#[tactic(auto, using(crate::proofs::Unused::unused_at_most, crate::proofs::Unused::unused_few))]
pub(crate) fn nth_unused(ids: u32, before: &[u32], place: u64) -> u32
    requires distinct { AllPairs (λ a b. a ≢ b) before.now }
    requires place { place < length (unused ids before.now) }
    ensures { slice_get (unused ids before.now) place ≡ Some result }
{
    let mut end = place as u32 + 1;
    let mut lacking = place + 1 - unused_below(before, end);
    while lacking > 0 {
        end += lacking as u32;
        lacking = place + 1 - unused_below(before, end);
    }
    end - 1
}

// Writes the list of `len` numbers with this number into the first `len` cells.
#[tactic(auto, using(crate::proofs::Sizes::no_windows))]
fn write_list(ids: u32, number: u64, list: &mut [u32], len: usize)
    requires room { len ≤ length list.old }
    requires below { number < length (windows len ids) }
    ensures item { slice_get (windows len ids) number ≡ Some (take len list.new) }
    ensures window { IsWindow len ids (take len list.new) }
{
    if len == 0 {
        return;
    }
    let last = len - 1;
    let free = u64::from(ids) - last as u64;
    write_list(ids, number / free, list, last);
    list[last] = nth_unused(ids, &list[..last], number % free);
}

// Replaces the list in the first `len` cells by the next one, or returns `false` if it is the last.
fn write_next(ids: u32, list: &mut [u32], len: usize) -> bool
    requires room { len ≤ length list.old }
    requires window { IsWindow len ids (take len list.old) }
    ensures replaced { IsReplaced len ids result (take len list.old) (take len list.new) }
    ensures same { OnFalse result (list.new ≡ list.old) }
{
    if len == 0 {
        return false;
    }
    if write_next_last(ids, list, len) {
        return true;
    }
    let last = len - 1;
    if !write_next(ids, list, last) {
        return false;
    }
    list[last] = nth_unused(ids, &list[..last], 0);
    true
}

// Replaces the last number in the first `len` cells by the next one that the others lack, or returns
// `false` if there is none.
fn write_next_last(ids: u32, list: &mut [u32], len: usize) -> bool
    requires room { (1 ≤ len) × (len ≤ length list.old) }
    requires window { IsWindow len ids (take len list.old) }
    ensures next { OnTrue result (IsNext len ids (take len list.old) (take len list.new)) }
    ensures none { OnFalse result ((find (λ x. not (is_used (take (len - 1) list.old) x))
        (range_with_len (slice_index list.old (len - 1) + 1) (ids - (slice_index list.old (len - 1) + 1))) ≡ None)
        × (list.new ≡ list.old)) }
    ensures window { IsWindow len ids (take len list.new) }
{
    let last = len - 1;
    let current = list[last];
    let Some(next) = least_unused(ids, &list[..last], current + 1) else {
        return false;
    };
    list[last] = next;
    true
}
