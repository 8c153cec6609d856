// Short ways through bytes: content by eight bytes, words compared by sixteen, rules 2 to 4 over many short lines at once.
// Each says only what it knows, and the plain function of lib.rt goes on from there.
ghost use Rattle.std.specs.Prelude.{◌≡◌, true, false, ◌+◌, ◌-◌, ◌<◌, ◌≤◌, length, take, eqb};
ghost use Rattle.base.specs.Runs.{same, all};
ghost use Rattle.base.specs.Way.Class.{run_end};
ghost use Rattle.base.specs.Bytes.{is_before, is_content};
ghost use Rattle.lex_line.specs.Words.{back_run};
ghost use Rattle.lex_line.specs.Way.LineFeeds.{line_feed_of, line_feeds, is_line_byte, ResumesLines};
ghost use Rattle.lex_line.specs.Lines.{comment_byte};
ghost use Rattle.base.specs.If.{provided◌then◌else◌};

use base::class::{Before, ByteClass, Printed};
use base::fast::BLOCK;

// How many bytes of a line are read as one number.
const EIGHT: usize = 8;

// How many bytes a short line has at most.
const SHORT: usize = 64;

// How many of eight bytes, counted from the first, are surely content. The bytes are read as one number. In each byte,
// the low seven bits plus 0x72 set the eighth bit from 14 on; plus 0x04 they set it from `|` on. A byte between the two
// is content. Any other byte may or may not be.
fn content_of_eight(eight: &[u8; EIGHT]) -> usize
    ensures { (result ≤ 8) × (all (is_content comment_byte) (take result eight.now) ≡ true) }
{
    let low = base::fast::eight_at(eight, 0) & 0x7f7f_7f7f_7f7f_7f7f;
    let least = (low + 0x7272_7272_7272_7272) & 0x8080_8080_8080_8080;
    let beyond = (low + 0x0404_0404_0404_0404) & 0x8080_8080_8080_8080;
    let doubt = (0x8080_8080_8080_8080 - least) | beyond;
    (u64::trailing_zeros(doubt) / 8) as usize
}

// Skips bytes that are surely content. Returns a position inside the content that starts at `from`, near its end: the
// first byte that still has to be tested.
pub fn skip_content(text: &[u8], from: usize) -> usize
    requires { from ≤ length text.now }
    ensures { run_end (is_content comment_byte) text.now result ≡ run_end (is_content comment_byte) text.now from }
{
    let mut rest = &text[from..];
    while let Some((eight, behind)) = rest.split_first_chunk::<EIGHT>() {
        let sure = content_of_eight(eight);
        if sure < EIGHT {
            return text.len() - rest.len() + sure;
        }
        rest = behind;
    }
    text.len() - rest.len()
}

// Whether two blocks have the same bytes. The loop compares every byte, without an early exit, so that a processor can
// compare them at once.
fn same_block(a: &[u8; BLOCK], b: &[u8; BLOCK]) -> bool
    ensures { result ≡ same a.now b.now }
{
    let mut whole = true;
    for i in 0..BLOCK {
        whole &= a[i] == b[i];
    }
    whole
}

// Whether two words of one length have the same bytes, compared block by block.
pub fn same_by_blocks(a: &[u8], b: &[u8]) -> bool
    requires { length a.now ≡ length b.now }
    ensures { result ≡ same a.now b.now }
{
    let mut left = a;
    let mut right = b;
    while let (Some((x, behind_x)), Some((y, behind_y))) = (
        left.split_first_chunk::<BLOCK>(),
        right.split_first_chunk::<BLOCK>(),
    ) {
        if !same_block(x, y) {
            return false;
        }
        left = behind_x;
        right = behind_y;
    }
    left == right
}

// Whether two words of one length differ in one of their last three bytes. Numbered names, such as A101 and A102, do.
pub fn has_other_end(a: &[u8], b: &[u8]) -> bool
    requires { length a.now ≡ length b.now }
    ensures { result ≡ true → same a.now b.now ≡ false }
{
    if a.len() < 3 {
        return false;
    }
    let last = a.len() - 1;
    if a[last] != b[last] {
        return true;
    }
    if a[last - 1] != b[last - 1] {
        return true;
    }
    a[last - 2] != b[last - 2]
}

// 1 for an LF, 0 for any other byte.
fn line_feed_of(b: u8) -> u8
    ensures { result ≡ line_feed_of b }
{
    u8::from(b == crate::LINE_FEED)
}

// How many bytes of a block are LFs. The loop tests every byte, so that a processor can test them at once.
fn line_feeds_in(block: &[u8; BLOCK]) -> u8
    ensures { result ≡ line_feeds block.now }
{
    let mut count = 0;
    for b in block {
        count += line_feed_of(*b);
    }
    count
}

// A byte that a line may contain, or an LF.
#[derive(Clone, Copy)]
struct LineByte;

impl ByteClass for LineByte {
    ghost holds = { λ _ b. is_line_byte b };

    fn contains(self, b: u8) -> bool {
        b == crate::LINE_FEED || Printed.contains(b)
    }
}

// How far lines have been passed: the position, and the number of the line there.
#[derive(Clone, Copy)]
pub struct Past {
    pub at: usize,
    pub line: u64,
}

// Where the last block with an LF ends: at `here` if the block just tested, which ends there, has one; else at `mark`.
fn last_end(mark: usize, here: usize, ends: u8) -> usize
    ensures { result ≡ (provided eqb ends 0 then mark else here) }
{
    if ends == 0 {
        return mark;
    }
    here
}

// Skips blocks of sixteen line bytes, and returns the end of the last block with an LF. So at most fifteen bytes of the
// next line are skipped. Stops at a block with any other byte, or once more than `most` bytes have no LF. As `most` is
// at most 80, no line that is skipped whole has over 120 characters.
fn past_ends(text: &[u8], line: u64, most: usize) -> Past
    requires { (line + length text.now ≤ 2_097_152) × (most ≤ 80) }
    ensures { (result.at ≤ length text.now)
        × ResumesLines text.now 0 line (result.at - back_run (is_before 10) text.now result.at) result.line }
{
    let mut here = 0;
    let mut mark = 0;
    let mut count = line;
    // The place is counted: `mark` and the bound `most` speak of places.
    while let Some((block, _)) = text[here..].split_first_chunk::<BLOCK>() {
        if !base::fast::is_block(LineByte, block) {
            break;
        }
        let ends = line_feeds_in(block);
        count += u64::from(ends);
        here += BLOCK;
        mark = last_end(mark, here, ends);
        if most < here - mark {
            break;
        }
    }
    Past {
        at: mark,
        line: count,
    }
}

// Skips lines that break no rule. Returns the start of the first line that still has to be checked.
fn past_short(text: &[u8], line: u64, most: usize) -> Past
    requires { (line + length text.now ≤ 2_097_152) × (most ≤ 80) }
    ensures { ResumesLines text.now 0 line result.at result.line }
{
    let past = past_ends(text, line, most);
    Past {
        at: crate::skip_back(Before(crate::LINE_FEED), text, past.at),
        line: past.line,
    }
}

// Skips more lines after a line of `size` bytes. After a short line there are often more of about its size; after any
// other line nothing is skipped.
pub fn past_more(text: &[u8], at: usize, line: u64, size: usize) -> Past
    requires { (at ≤ length text.now) × (line ≤ at + 1) × (length text.now ≤ 1_048_576) }
    ensures { ResumesLines text.now at line result.at result.line }
{
    if SHORT < size {
        return Past { at, line };
    }
    let past = past_short(&text[at..], line, size + BLOCK);
    Past {
        at: at + past.at,
        line: past.line,
    }
}
