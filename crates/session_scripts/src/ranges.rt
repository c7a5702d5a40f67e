//! The numbers that a session has left of a sequence.

ghost use Rattle.std.specs.Prelude.{◌≡◌, IfOk, OnOk};
ghost use Rattle.part_model.specs.Script.{numbers_left_for, range_of, ranges_after, unless_used_up, with_range, without_first};

use crate::answers::answer_number;
use ignite_types::{Answer, Item, Key, Mem};
use ordered_table::Table;
use part_model::Range;
use std::alloc::Global;

/// A copy of the numbers that are left.
pub fn copied(alloc: Global, ranges: &Table<Key, Range>) -> Mem<Table<Key, Range>>
    ensures { IfOk result (λ copy. copy ≡ ranges.now) }
{
    let mut copy = Table::new(alloc);
    for (object, range) in ranges.as_slice() {
        copy.set(*object, *range)?;
    }
    Ok(copy)
}

/// The numbers behind the first one of ten, of which the sum is the last.
pub fn range_of(sum: Option<i64>) -> Option<Range>
    ensures { result ≡ range_of sum }
{
    let sum = sum?;
    if 10 <= sum {
        Some(Range {
            next: sum - 8,
            last: sum,
        })
    } else {
        None
    }
}

/// Keeps the numbers behind the first one of ten that were drawn.
pub fn keep_range(item: &Item, ranges: &mut Table<Key, Range>, answer: &Answer) -> Mem<()>
    ensures { OnOk result (ranges.new ≡ ranges_after item.now ranges.old answer.now) }
{
    if let Item::Next(object) = item {
        if let Some(range) = range_of(answer_number(answer)) {
            ranges.set(*object, range)?;
        }
    }
    Ok(())
}

/// The numbers that are left for an item that needs no command then.
pub fn left_for(item: &Item, ranges: &Table<Key, Range>) -> Option<(Key, Range)>
    ensures { result ≡ numbers_left_for item.now ranges.now }
{
    let Item::Next(object) = item else {
        return None;
    };
    let range = ranges.get(object)?;
    if range.next <= range.last {
        Some((*object, *range))
    } else {
        None
    }
}

/// Takes the first number out.
pub fn take_first(ranges: &mut Table<Key, Range>, object: &Key, range: &Range) -> Mem<()>
    ensures { OnOk result (ranges.new ≡ without_first ranges.old (object.now, range.now)) }
{
    if range.next < range.last {
        let rest = Range {
            next: range.next + 1,
            last: range.last,
        };
        ranges.set(*object, rest)?;
    } else {
        let _last = ranges.remove(object);
    }
    Ok(())
}
