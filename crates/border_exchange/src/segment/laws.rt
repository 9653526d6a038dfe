//! The law that segments cover the ring.
ghost use Rattle.border_exchange.specs.Laws as law;

/// The segments of a ring partition its places in order, and each has at least one.
pub fn segments_cover_the_ring()
    ensures { law.SegmentsCoverTheRing }
{}
