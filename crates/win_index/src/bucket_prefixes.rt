//! The prefixes of the buckets of a level, one after another.
ghost use Rattle.std.specs.Prelude.{◌≡◌, ℕ, List, ◌+◌, ◌-◌, ◌*◌, ◌<◌, ◌≤◌, take, IfSome, IfNone};
ghost use Rattle.win_index.specs.BucketPrefixes.{HasNumbers, IsLonger, IsPrefix, IsNextPrefix, IsLastPrefix};
ghost use Rattle.win_index.specs.BucketPrefixes.{IsPrefixOfNextBucket, IsPrefixOfLastBucket};
ghost use Rattle.win_index.specs.Windows.{IsWindow};

use crate::bucket_prefix::BucketPrefix;
use crate::prefixes::Prefixes;
use crate::shape::Shape;

/// A prefix of a bucket, and what is needed to step to the next one: of three identifiers or more,
/// the numbers of the list without the last one, and the position of that one. Most steps change it
/// alone.
#[derive(Clone, Copy)]
pub struct BucketPrefixes {
    lists: Prefixes,
    prefix: BucketPrefix,
    front: BucketPrefix,
    place: u32,
    ghost parts: { (list : List ℕ) → HasNumbers lists.len lists.ids list prefix → 3 ≤ lists.len
        → IsLonger (lists.len - 1) lists.ids front place list },
}

impl BucketPrefixes {
    /// Returns the prefix.
    pub fn prefix(self) -> BucketPrefix
        ensures { result ≡ self.prefix }
    {
        self.prefix
    }

    /// Returns the next prefix, or `None` if this is the last one.
    pub fn next(self) -> Option<BucketPrefixes>
        requires { IsPrefix self.lists.len self.lists.ids self.prefix }
        ensures lists { IfSome result (λ later. later.lists ≡ self.lists) }
        ensures next { IfSome result
            (λ later. IsPrefixOfNextBucket self.lists.len self.lists.ids self.prefix later.prefix) }
        ensures last { IfNone result (IsPrefixOfLastBucket self.lists.len self.lists.ids self.prefix) }
    {
        self.step()
    }

    // Like `next`.
    fn step(self) -> Option<BucketPrefixes>
        requires { IsPrefix self.lists.len self.lists.ids self.prefix }
        ensures lists { IfSome result (λ later. later.lists ≡ self.lists) }
        ensures next { IfSome result (λ later. IsNextPrefix self.lists.len self.lists.ids self.prefix later.prefix) }
        ensures last { IfNone result (IsLastPrefix self.lists.len self.lists.ids self.prefix) }
    {
        let lists = self.lists;
        if lists.len == 2 {
            let Some(next) = lists.next_pair(self.prefix) else {
                return None;
            };
            return Some(BucketPrefixes::new(lists, next));
        }
        let shorter = lists.shorter();
        if let Some(place) = shorter.places(self.front).after(self.place) {
            return Some(BucketPrefixes::longer(lists, self.front, place));
        }
        let Some(front) = shorter.next(self.front) else {
            return None;
        };
        let place = shorter.places(front).first();
        Some(BucketPrefixes::longer(lists, front, place))
    }

    // Returns a prefix, with what is needed to step.
    fn new(lists: Prefixes, prefix: BucketPrefix) -> BucketPrefixes
        requires { IsPrefix lists.len lists.ids prefix }
        ensures lists { result.lists ≡ lists }
        ensures prefix { result.prefix ≡ prefix }
    {
        if lists.len == 2 {
            return BucketPrefixes {
                lists,
                prefix,
                front: prefix,
                place: 0,
            };
        }
        let (front, place) = lists.shorter().without_last(prefix);
        BucketPrefixes {
            lists,
            prefix,
            front,
            place,
        }
    }

    // Returns the prefix with one identifier more than this one, which has this position.
    fn longer(lists: Prefixes, front: BucketPrefix, place: u32) -> BucketPrefixes
        requires len { 3 ≤ lists.len }
        requires list { (list : List ℕ) × IsLonger (lists.len - 1) lists.ids front place list }
        ensures lists { result.lists ≡ lists }
        ensures prefix { (list : List ℕ) → IsLonger (lists.len - 1) lists.ids front place list
            → HasNumbers lists.len lists.ids list result.prefix }
    {
        let prefix = lists.shorter().longer(front, place);
        BucketPrefixes {
            lists,
            prefix,
            front,
            place,
        }
    }
}

impl Shape {
    /// Returns the prefix of the bucket of a window one level above `below`, to be stepped from.
    pub fn bucket_prefixes_from(&self, below: u32, window: &[u32]) -> BucketPrefixes
        requires below { below < self.now.rounds }
        requires window { IsWindow (2 * below + 3) self.now.ids window.now }
        ensures ids { result.lists.ids ≡ self.now.ids }
        ensures len { result.lists.len ≡ 2 * below + 2 }
        ensures prefix { HasNumbers (2 * below + 2) self.now.ids (take (2 * below + 2) window.now) result.prefix }
    {
        BucketPrefixes::new(
            self.bucket_prefixes(below),
            self.bucket_prefix(below, window),
        )
    }
}
