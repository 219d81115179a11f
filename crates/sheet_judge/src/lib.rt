// Document 01, "Only a faultless sheet can get 12", and request 12, "the longest faultless run of kit records from the first on": the judge of a
// sheet, which touches no table. It answers the offset of the first faulty item up to the kit count, or the counts and the run of records.
// (Casts here are bounded, which the check proves: `try_from` would add a refusal that cannot come, no plainer.)
#![tactic(auto)]

ghost use Rattle.std.specs.Prelude.{◌≡◌, ◌&&◌, ◌||◌, List, [], ℕ, ◌+◌, ◌<◌, ◌≤◌, length, drop, leb, eqb};
ghost use Rattle.ground.specs.Limits.{most_parts, two_limit};
ghost use Rattle.ground.specs.Lists.{anyb, is_zero};
ghost use Rattle.kits.specs.Kits.{most_units, before, units_in};
ghost use Rattle.sheet.specs.Sheet.{version, place_bytes};
ghost use Rattle.sheet.specs.Inner.{head_bytes};
ghost use Rattle.sheet.specs.Reading.{versions, onward, numbers, records, salvage};
ghost use Rattle.sheet_judge.specs.Inner.{judged_of, run_told, behind_numbers, head_says, numbers_say, NumberEnds, good_lines, new_tag};

use ground::same;
use kits::{MOST_UNITS, Row, agree, check_list, compare, has_room, row_of};
use register::good_number;
use repeats::{HASHES, MOST_ENTRIES, number_here, repeats_earlier};
use sheet::{Sheet, TWO_BYTES, item_size, list_in, list_words, place_bytes, record_end, two_at};

// A two-byte tag is one of so many.
const TAGS: usize = 0x1_0000;

// The longest faultless run of kit records: how many, the nodes that their kits need, and where it ends.
#[derive(Clone, Copy)]
pub struct Run {
    pub kept: usize,
    pub nodes: usize,
    pub end: usize,
}

// What the judge finds where nothing up to the kit count is at fault: the counts, of which that of kits is as announced, and the run.
#[derive(Clone, Copy)]
pub struct Found {
    pub sheet: Sheet,
    pub run: Run,
}

// The offset of the first faulty item.
pub type FaultAt = usize;

// "version 1 .. and version 2"
#[tactic(auto, unfolding(ground::specs::Lists::anyb))]
fn is_version(v: u16) -> bool
    ensures { result ≡ anyb (eqb v) versions }
{
    v == Sheet::NARROW || v == Sheet::WIDE
}

// Whether a sheet of the version v may have so many parts: not too many, and those of its version.
fn count_ok(v: u16, parts: u16) -> bool
    ensures { result ≡ (leb parts most_parts && eqb v (version parts)) }
{
    parts <= Sheet::MOST_PARTS && v == Sheet::version(parts)
}

// Mark, version and part count: the part count.
fn read_head(s: &[u8]) -> Result<usize, FaultAt>
    ensures { head_says s.now result }
{
    if s.len() < Sheet::VERSION_AT {
        return Err(0);
    }
    if !same(&s[..Sheet::VERSION_AT], &Sheet::MARK) {
        return Err(0);
    }
    if s.len() < Sheet::PARTS_AT {
        return Err(Sheet::VERSION_AT);
    }
    let version = two_at(s, Sheet::VERSION_AT);
    if !is_version(version) {
        return Err(Sheet::VERSION_AT);
    }
    if s.len() < Sheet::HEAD {
        return Err(Sheet::PARTS_AT);
    }
    let count = two_at(s, Sheet::PARTS_AT);
    if !count_ok(version, count) {
        return Err(Sheet::PARTS_AT);
    }
    Ok(usize::from(count))
}

// Where the number at a place ends; none where it is cut short or not good.
#[tactic(auto, using(crate::proofs::Numbers::number_none, crate::proofs::Numbers::number_cut, crate::proofs::Numbers::number_bad))]
fn number_end(s: &[u8], at: usize) -> Option<usize>
    requires { at ≤ length s.now }
    ensures { NumberEnds s.now at result }
{
    if s.len() == at {
        return None;
    }
    let size = item_size(s, at);
    if s.len() - at < size {
        return None;
    }
    if !good_number(number_here(s, at)) {
        return None;
    }
    Some(at + size)
}

// n numbers, behind the head, each a good one, and none of those before it: where they end. (There is no heap: the arrays have room for the most
// numbers, and for every hash.)
fn read_numbers(s: &[u8], n: usize) -> Result<usize, FaultAt>
    requires inside { head_bytes ≤ length s.now }
    requires few { n ≤ most_parts }
    ensures { numbers_say s.now n result }
{
    let mut offsets = [0; MOST_ENTRIES];
    let mut lasts = [0; HASHES];
    let mut earlier = [0; MOST_ENTRIES];
    let mut at = Sheet::HEAD;
    for k in 0..n {
        let Some(end) = number_end(s, at) else {
            return Err(at);
        };
        offsets[k] = at as u32;
        if repeats_earlier(s, &offsets, k, &mut lasts, &mut earlier) {
            return Err(at);
        }
        at = end;
    }
    Ok(at)
}

// Whether a record's tag and its list are good, with so many parts: the tag is one, none that was seen, and the lines obey the rules.
fn record_good(tag: usize, tags: &[u8; TAGS], list: &[u16], parts: u16) -> bool
    requires { tag < two_limit }
    ensures { result ≡ (new_tag tags.now tag && good_lines parts list.now) }
{
    tag != 0 && tags[tag] == 0 && check_list(list, parts).is_ok() && has_room(list)
}

// The row before the first record's.
pub fn no_row() -> Row
    ensures { (result.len ≡ 0) × (units_in result ≡ []) }
{
    Row {
        places: [0; MOST_UNITS],
        len: 0,
    }
}

// Whether a row comes after the one before; the first of all comes after none.
fn comes_after(prev: Row, row: Row, k: usize) -> bool
    requires { (prev.len ≤ most_units) × (row.len ≤ most_units) }
    ensures { result ≡ (is_zero k || before (units_in prev) (units_in row)) }
{
    k == 0 || compare(prev, row).is_lt()
}

// The run of kit records from a place on. A record's list and its row are built once.
fn judge_records(s: &[u8], from: usize, sheet: Sheet) -> Run
    requires { from ≤ length s.now }
    ensures { result ≡ run_told
        (records (place_bytes sheet.parts) sheet.kits sheet.parts [] (drop from s.now) from) }
{
    let parts = sheet.parts;
    let w = place_bytes(parts);
    let n = usize::from(sheet.kits);
    let mut tags = [0; TAGS];
    let mut prev = no_row();
    let mut nodes: usize = 1;
    let mut end = from;
    for kept in 0..n {
        let Some(next) = record_end(s, end, w) else {
            return Run { kept, nodes, end };
        };
        let tag = usize::from(two_at(s, end));
        let words = list_words(s, end);
        let list = list_in(s, end, w);
        if !record_good(tag, &tags, &list[..words], parts) {
            return Run { kept, nodes, end };
        }
        let row = row_of(&list[..words]);
        if !comes_after(prev, row, kept) {
            return Run { kept, nodes, end };
        }
        nodes += row.len - agree(prev, row);
        tags[tag] = 1;
        prev = row;
        end = next;
    }
    Run {
        kept: n,
        nodes,
        end,
    }
}

// The kit count behind n numbers, and the run of records.
#[tactic(auto, using(crate::proofs::Walk::count_short, crate::proofs::Walk::count_read))]
fn judge_kits(s: &[u8], at: usize, n: usize) -> Result<Found, FaultAt>
    requires inside { at ≤ length s.now }
    requires few { n ≤ most_parts }
    ensures { (ps : List (List ℕ)) → length ps ≡ n → result ≡ judged_of (behind_numbers ps (drop at s.now) at) }
{
    if s.len() - at < TWO_BYTES {
        return Err(at);
    }
    let sheet = Sheet::new(n as u16, two_at(s, at));
    let run = judge_records(s, at + TWO_BYTES, sheet);
    Ok(Found { sheet, run })
}

// n numbers behind the head, and what follows them.
#[tactic(auto, using(crate::proofs::Walk::numbers_fault, crate::proofs::Walk::numbers_read))]
fn judge_parts(s: &[u8], n: usize) -> Result<Found, FaultAt>
    requires inside { head_bytes ≤ length s.now }
    requires few { n ≤ most_parts }
    ensures { result ≡ judged_of (onward (numbers n [] (drop head_bytes s.now) head_bytes) behind_numbers) }
{
    let at = read_numbers(s, n)?;
    judge_kits(s, at, n)
}

// The whole sheet.
#[tactic(auto, using(crate::proofs::Walk::judged_fault))]
pub fn judge(s: &[u8]) -> Result<Found, FaultAt>
    ensures { result ≡ judged_of (salvage s.now) }
{
    let n = read_head(s)?;
    judge_parts(s, n)
}
