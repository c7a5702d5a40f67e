//! The map of highest version among the singles.

ghost use Rattle.std.specs.Prelude.{◌≡◌, None};
ghost use Rattle.std.specs.Option.{option_copied};
ghost use Rattle.part_model.specs.NextMap.{is_higher, newer_map, newest_map_from};

use ignite_types::{PartMap, Single, TopVer};

/// Whether the first version is the higher one.
fn is_higher(a: TopVer, b: TopVer) -> bool
    ensures { result ≡ is_higher a b }
{
    b < a
}

/// The map of higher version; of two of one version the first.
fn newer<'a>(best: Option<&'a PartMap>, next: Option<&'a PartMap>) -> Option<&'a PartMap>
    ensures { option_copied result ≡ newer_map (option_copied best.entry) (option_copied next.entry) }
{
    match (best, next) {
        (None, _) => next,
        (Some(_), None) => best,
        (Some(old), Some(new)) => {
            if is_higher(new.top, old.top) {
                next
            } else {
                best
            }
        }
    }
}

/// The map of highest version, where a single has a map.
pub(crate) fn newest(singles: &[Single]) -> Option<&PartMap>
    ensures { option_copied result ≡ newest_map_from None singles.now }
{
    let mut best = None;
    for single in singles {
        best = newer(best, single.map.as_ref());
    }
    best
}
