// Runs of bytes found sixteen bytes at a time, which end where `skip` says; and several bytes as one number.
ghost use Rattle.std.specs.Prelude.{◌≡◌, ◌+◌, ◌-◌, ◌<◌, ◌≤◌, length, take, drop};
ghost use Rattle.base.specs.Runs.{all};
ghost use Rattle.base.specs.Way.Joined.{Joins};
ghost use Rattle.base.specs.Way.Class.{run_end, RunsOn};

use crate::class::ByteClass;

// How many bytes are tested together.
pub const BLOCK: usize = 16;

// Four bytes as one number, the first byte the least significant. A processor can load them at once.
pub fn four_at(s: &[u8], at: usize) -> u64
    requires { at + 4 ≤ length s.now }
    ensures joins { Joins (take 4 (drop at s.now)) result }
    ensures bound { result < 4_294_967_296 }
{
    let low = crate::wide(s[at]) + 256 * crate::wide(s[at + 1]);
    let high = crate::wide(s[at + 2]) + 256 * crate::wide(s[at + 3]);
    low + 65_536 * high
}

// Eight bytes as one number, the first byte the least significant.
pub fn eight_at(s: &[u8], at: usize) -> u64
    requires { at + 8 ≤ length s.now }
    ensures { Joins (take 8 (drop at s.now)) result }
{
    four_at(s, at) + 4_294_967_296 * four_at(s, at + 4)
}

// Whether a block is all of a class. The loop tests every byte, without an early exit, so that a processor can test them
// at once.
pub fn is_block<C: ByteClass>(class: C, block: &[u8; BLOCK]) -> bool
    ensures { result ≡ all (C.holds class) block.now }
{
    let mut whole = true;
    for b in block {
        whole &= class.contains(*b);
    }
    whole
}

// What is left of the bytes after the whole blocks at their front that are all of a class.
fn past_blocks<C: ByteClass>(class: C, s: &[u8]) -> &[u8]
    ensures { RunsOn (C.holds class) s.now result.now }
{
    let mut rest = s;
    while let Some((block, behind)) = rest.split_first_chunk::<BLOCK>() {
        if !is_block(class, block) {
            break;
        }
        rest = behind;
    }
    rest
}

// The same as `skip`, faster for runs that are often longer than a block.
pub fn skip_far<C: ByteClass>(class: C, s: &[u8], from: usize) -> usize
    ensures { result ≡ run_end (C.holds class) s.now from }
{
    if s.len() <= from {
        return from;
    }
    let rest = past_blocks(class, &s[from..]);
    s.len() - rest.len() + crate::run_length(class, rest)
}
