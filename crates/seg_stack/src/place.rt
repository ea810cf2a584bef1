//! Where an activation lies: in which segment, and where it begins and ends there.

ghost use Rattle.std.specs.Prelude.{◌≡◌, ◌+◌, ◌≤◌, ◌<◌, length, suc};
ghost use Rattle.target_code.specs.Target.{below_of};
ghost use Rattle.seg_stack.specs.Layout.{IsLaid, IsNext, nth, before, frames_in};

use crate::segment::Segment;

/// The places of the innermost activation; all are 0 where there is none.
#[derive(Clone, Copy)]
pub(crate) struct Place {
    pub(crate) segment: usize,
    pub(crate) base: usize,
    pub(crate) end: usize,
}

/// Where the next activation of so many words lies: behind this one, or in the next segment where
/// it doesn't fit into the rest of this one.
#[inline]
pub(crate) fn inside(place: Place, words: usize) -> Place
    requires within { place.end ≤ 4096 }
    requires few { words ≤ 132 }
    requires segments { place.segment ≤ 4333973 }
    ensures { IsNext place words result }
{
    if place.end + words <= 4096 {
        return Place {
            segment: place.segment,
            base: place.end,
            end: place.end + words,
        };
    }
    Place {
        segment: place.segment + 1,
        base: 0,
        end: words,
    }
}

/// Where the activation outside this one lies, of which there are so many.
#[inline]
pub(crate) fn outside(segments: &[Segment], place: Place, depth: u32) -> Place
    requires there { place.segment < length segments.now }
    requires laid { IsLaid (suc depth) (nth segments.now place.segment)
        (before segments.now place.segment) place.base place.end }
    ensures laid { IsLaid depth (nth segments.now result.segment)
        (before segments.now result.segment) result.base result.end }
    ensures frames { frames_in segments.now result.segment result.base depth
        ≡ below_of (frames_in segments.now place.segment place.base (suc depth)) }
    ensures within { (result.segment ≤ length segments.now) × (result.base ≤ 4092) }
{
    let below = segments[place.segment].word(place.base + 3) as usize;
    if place.base > 0 {
        return Place {
            segment: place.segment,
            base: below,
            end: place.base,
        };
    }
    if depth == 0 {
        return Place {
            segment: 0,
            base: 0,
            end: 0,
        };
    }
    let segment = place.segment - 1;
    let slots = segments[segment].word(below + 2) as usize;
    Place {
        segment,
        base: below,
        end: below + (slots + 4),
    }
}
