//! Rings of distinct identifiers.
ghost use Rattle.win_index.specs.Ring.{IsRing};

use crate::limits::MAX_IDS;
use crate::shape::Shape;
use std::marker::Model;

/// Why a list of identifiers is not a ring of a shape.
#[derive(Clone, Copy, Debug, PartialEq, Eq)]
pub enum RingFault {
    /// G1: fewer than `2t+2` places.
    TooShort,
    /// G2: more places than identifiers.
    TooLong,
    /// G3: the place of an identifier that is not below the number of identifiers.
    IdTooLarge(u32),
    /// G4: two places with the same identifier, the earlier one first.
    Repeated(u32, u32),
}

/// An oriented ring of a shape: `2t+2` to `MAX_IDS` places with distinct identifiers, read in a
/// circle. The right neighbour of place `i` is place `i+1`, and that of the last place is place 0.
#[derive(Drop)]
pub struct Ring {
    shape: Shape,
    ids: Vec<u32>,
}

impl Model for Ring {
    ghost use Rattle.win_index.specs.Ring.{OrientedRing, IsRing};

    ghost Value = { OrientedRing };

    ghost view = { λ r. record { ids = r.shape.ids; rounds = r.shape.rounds; places = r.ids.items } };

    ghost invariant = { λ r. IsRing r.shape.ids r.shape.rounds r.ids.items };
}

impl Ring {
    ghost use Rattle.std.specs.Prelude.{◌≡◌, ◌+◌, ◌*◌, ◌<◌, ◌≤◌, ◌↔◌, IfOk, IfErr, IsOk, IsTrue, length};
    ghost use Rattle.std.specs.Prelude.{slice_get, Some};
    ghost use Rattle.win_index.specs.Arcs.{window_around};
    ghost use Rattle.win_index.specs.RingFaults.{IsFirstFault};

    /// Makes a ring of these identifiers. Fails exactly if they are no ring, and returns the list
    /// with its first fault: its length, or else the least place whose identifier is too large or
    /// occurs before it.
    pub fn new(shape: Shape, ids: Vec<u32>) -> Result<Ring, (Vec<u32>, RingFault)>
        ensures ok { IfOk result
            (λ ring. ring ≡ record { ids = shape.ids; rounds = shape.rounds; places = ids.items }) }
        ensures exact { IsOk result ↔ IsRing shape.ids shape.rounds ids.items }
        ensures err { IfErr result (λ e. (e.0 ≡ ids) × IsFirstFault shape.ids shape.rounds ids.items e.1) }
    {
        match first_fault(shape, &ids) {
            None => Ok(Ring { shape, ids }),
            Some(fault) => Err((ids, fault)),
        }
    }

    /// Returns the shape that the ring was made for.
    pub fn shape(&self) -> Shape
        ensures ids { result.ids ≡ self.now.ids }
        ensures rounds { result.rounds ≡ self.now.rounds }
        ensures valid { IsRing self.now.ids self.now.rounds self.now.places }
    {
        self.shape
    }

    /// Returns the number of places, `2t+2` to `MAX_IDS`.
    pub fn len(&self) -> u32
        ensures value { result ≡ length self.now.places }
        ensures valid { IsRing self.now.ids self.now.rounds self.now.places }
        ensures few { result ≤ MAX_IDS }
    {
        self.ids.len() as u32
    }

    /// Returns the identifiers, from place 0 on.
    pub fn ids(&self) -> &[u32]
        ensures value { result.now ≡ self.now.places }
        ensures valid { IsRing self.now.ids self.now.rounds self.now.places }
        ensures few { length result.now ≤ MAX_IDS }
    {
        &self.ids
    }

    /// Returns the identifier of a place.
    pub fn id(&self, place: u32) -> u32
        requires { place < length self.now.places }
        ensures { slice_get self.now.places place ≡ Some result }
    {
        self.ids[place as usize]
    }

    /// Returns whether the two rings have the same shape and the same identifiers from place 0 on.
    pub fn same(&self, other: &Ring) -> bool
        ensures { IsTrue result ↔ (self.now ≡ other.now) }
    {
        self.ids.as_slice() == other.ids.as_slice() && self.shape == other.shape
    }

    /// Writes the window of level `r` at a place to the `2r+1` cells of `out`: the identifiers from
    /// `r` places to its left to `r` places to its right.
    pub fn window_at(&self, place: u32, level: u32, out: &mut [u32])
        requires place { place < length self.now.places }
        requires level { level ≤ self.now.rounds }
        requires room { length out.old ≡ 2 * level + 1 }
        ensures window { out.new ≡ window_around self.now.places level place }
        ensures valid { IsRing self.now.ids self.now.rounds self.now.places }
    {
        let ids = self.ids();
        let start = place as usize + ids.len() - level as usize;
        for (k, cell) in out.iter_mut().enumerate() {
            *cell = ids[(start + k) % ids.len()];
        }
    }
}

ghost use Rattle.std.specs.Prelude.{◌≡◌, ◌≢◌, ◌<◌, length, slice_index, EachIndex, MatchOption};
ghost use Rattle.win_index.specs.RingFaults.{IsFirstFault};

// Returns the first fault of a list of identifiers, or `None` if it is a ring.
fn first_fault(shape: Shape, ids: &[u32]) -> Option<RingFault>
    ensures { MatchOption result (IsRing shape.ids shape.rounds ids.now)
        (IsFirstFault shape.ids shape.rounds ids.now) }
{
    if ids.len() < 2 * shape.rounds as usize + 2 {
        return Some(RingFault::TooShort);
    }
    if ids.len() > shape.ids as usize {
        return Some(RingFault::TooLong);
    }
    for (place, id) in ids.iter().enumerate() {
        if *id >= shape.ids {
            return Some(RingFault::IdTooLarge(place as u32));
        }
        if let Some(first) = place_of(&ids[..place], *id) {
            return Some(RingFault::Repeated(first as u32, place as u32));
        }
    }
    None
}

// Returns a place with this identifier.
fn place_of(ids: &[u32], id: u32) -> Option<usize>
    ensures { MatchOption result (EachIndex ids.now (λ k. slice_index ids.now k ≢ id))
        (λ k. (k < length ids.now) × (slice_index ids.now k ≡ id)) }
{
    ids.iter().position(|x| *x == id)
}
