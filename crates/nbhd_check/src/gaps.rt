//! Close channels in a list, outside a gap.
ghost use Rattle.std.specs.Prelude.{◌<◌, ◌↔◌, IsTrue, length};
ghost use Rattle.nbhd_check.specs.Buckets.{HasClose, HasCloseOutside};

/// Returns whether the list has a channel, at another index than the gap, that differs from
/// `channel` by less than `distance`.
pub(crate) fn has_close_outside(list: &[u16], gap: usize, distance: u32, channel: u16) -> bool
    requires { gap < length list.now }
    ensures { IsTrue result ↔ HasCloseOutside list.now gap distance channel }
{
    has_close(&list[..gap], distance, channel) || has_close(&list[gap + 1..], distance, channel)
}

// Returns whether the list has a channel that differs from `channel` by less than `distance`.
// Compares with all channels of the list, many at a time.
fn has_close(list: &[u16], distance: u32, channel: u16) -> bool
    ensures { IsTrue result ↔ HasClose list.now distance channel }
{
    let mut found = false;
    for other in list {
        found |= u32::from(channel.abs_diff(*other)) < distance;
    }
    found
}
