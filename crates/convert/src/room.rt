// Whether a region's values can go into another form: their stamps, and their space.
ghost use Rattle.std.specs.Prelude.{◌≡◌, ◌≤◌, map, length};
ghost use Rattle.model.specs.Region.{entries_in, values};
ghost use Rattle.model.specs.Move.{unstamped, rule20};
ghost use Rattle.convert.specs.Bare.{content_in};

use crate::put;
use model::Layout;
use values::list;

// Rule 20: a value with 0x20 would go to a form without stamps. Whose the values are does not matter.
pub(crate) fn is_unstampable(from: Layout, to: Layout, region: &[u8]) -> bool
    requires { length region.now ≤ 28672 }
    ensures { result ≡ rule20 to (values (entries_in from region.now)) }
{
    if to.is_stamped() {
        return false;
    }
    let any = [0u8; 16];
    list::tally(from, region, &any, false).stamped
}

// The bytes of header and values in another form. They are composed in no room, where they are only counted.
pub(crate) fn needed(from: Layout, to: Layout, region: &[u8], size: usize) -> usize
    requires { length region.now ≤ 28672 }
    ensures { result ≡ length (content_in to size (map unstamped (values (entries_in from region.now)))) }
{
    let mut room = [0u8; 1];
    put::put_region(from, to, &mut room, size, region)
}
