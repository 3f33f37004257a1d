//! How far a leap goes.
ghost use Rattle.std.specs.Prelude.{◌≡◌, ◌<◌, ◌≤◌};

use plane_core::Plane;

// No leap is longer.
const LONGEST: u64 = 1 << 60;

/// So many generations at once, and how many squares they made.
#[derive(Clone, Copy)]
pub(crate) struct Leap {
    pub(crate) count: u64,
    pub(crate) made: u32,
}

/// How far the first leap of a way may go: as far as the last one before, or else an eighth of the
/// longer side of the pattern, rounded up.
pub(crate) fn first(pace: u64, plane: &Plane) -> u64
    ensures some { 1 ≤ result }
    ensures most { result ≤ 1152921504606846976 }
{
    let length = if pace > 0 { pace } else { side(plane) / 8 + 1 };
    length.clamp(1, LONGEST)
}

// How far apart live cells lie, along the axis where that is more; 0 where there are none.
fn side(plane: &Plane) -> u64 {
    match plane.bounds() {
        None => 0,
        Some(b) => b.right.abs_diff(b.left).max(b.bottom.abs_diff(b.top)),
    }
}

/// The greatest power of two up to a length and up to what is left; or all that is left, where the
/// length allows it and is more than twice the leap before, of `last` generations.
pub(crate) fn stride(length: u64, left: u64, last: u64) -> u64
    requires length { 1 ≤ length }
    requires left { 1 ≤ left }
    ensures some { 1 ≤ result }
    ensures left { result ≤ left }
    ensures length { result ≤ length }
{
    if left <= length && last < length / 2 {
        return left;
    }
    power_up_to(length.min(left))
}

// The greatest power of two up to a number.
fn power_up_to(most: u64) -> u64
    requires { 1 ≤ most }
    ensures some { 1 ≤ result }
    ensures most { result ≤ most }
{
    let mut power = 1;
    while power <= most / 2 {
        power *= 2;
    }
    power
}

// Whether a leap made clearly fewer squares a generation than the one before it, which is half as long
// where it is shorter.
fn falls(before: Leap, now: Leap) -> bool {
    if now.count > before.count {
        now.made / 3 <= before.made / 2
    } else {
        now.made / 3 <= before.made / 4
    }
}

// Whether a leap made no more squares than a shorter one before it, as those of regular patterns do;
// or no more than four such leaps, where it is 16 times as long.
fn is_regular(before: Leap, now: Leap) -> bool {
    let doublings = if now.count / 16 >= before.count { 4 } else { 1 };
    before.count > 0 && now.count > before.count && now.made / doublings <= before.made
}

/// How far the next leap may go after one that was allowed a length, and made squares of at most
/// `most`.
///
/// It is 16 times as far where the pattern seems regular and few were made, twice as far where few
/// were made, or where they fell, and half as far where many were made. A leap shorter than the least
/// is doubled in any case, and what ended a way says nothing.
pub(crate) fn paced(length: u64, least: u64, most: u32, before: Leap, now: Leap) -> u64
    requires length { (1 ≤ length) × (length ≤ 1152921504606846976) }
    requires count { (1 ≤ now.count) × (now.count ≤ length) }
    ensures some { 1 ≤ result }
    ensures most { result ≤ 1152921504606846976 }
{
    let count = now.count;
    if count <= length / 2 {
        return length;
    }
    if is_regular(before, now) && now.made <= most / 64 {
        return 16 * count.min(LONGEST / 16);
    }
    if count < least || now.made <= most / 64 || (falls(before, now) && now.made <= most / 8) {
        return (2 * count).min(LONGEST);
    }
    if now.made > most / 8 && count / 2 > least {
        return count / 2;
    }
    count
}

/// How far it may go after one of `count` generations for which there was no room.
pub(crate) fn eased(count: u64) -> u64
    requires { 2 ≤ count }
    ensures some { 1 ≤ result }
    ensures fewer { result < count }
{
    (count / 4).max(1)
}
