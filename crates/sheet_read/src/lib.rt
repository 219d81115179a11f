// Document 01, "Read a sheet", and request 12, "Rescue a torn sheet": a sheet that the judge finds faultless, or what is kept of a torn one, fills
// both tables, if they have room. The whole register and the whole node table are written.
// (Casts here are bounded, which the check proves: `try_from` would add a refusal that cannot come, no plainer.)
#![tactic(auto)]

ghost use Rattle.std.specs.Prelude.{◌≡◌, Ok, true, ◌||◌, ◌+◌, ◌*◌, ◌<◌, ◌≤◌, length, ltb};
ghost use Rattle.ground.specs.Laid.{laid, zeroed};
ghost use Rattle.repeats.specs.Inner.{number_here, next_place};
ghost use Rattle.kits.specs.Kits.{most_units, units};
ghost use Rattle.register.specs.Register.{slot_bytes, slot_count, register_length, register_of};
ghost use Rattle.nodes.specs.Nodes.{nodes_length};
ghost use Rattle.nodes.specs.Held.{with_units};
ghost use Rattle.index_insert.specs.Enter.{enter_all};
ghost use Rattle.sheet.specs.Sheet.{Contents, place_bytes, bytes_of, number_item};
ghost use Rattle.sheet.specs.Bytes.{two_bytes};
ghost use Rattle.sheet.specs.Inner.{head_bytes, numbers_at, end_at, list_at, WholeAt};
ghost use Rattle.answers.specs.Answers.{reply};
ghost use Rattle.sheet.specs.Reading.{salvage};
ghost use Rattle.sheet.specs.Calls.{report_of};
ghost use Rattle.sheet_judge.specs.Inner.{judged_of};
ghost use Rattle.ground.specs.Tables.{tables};
ghost use Rattle.sheet_read.specs.Inner.{ReadPromise, TakePromise, SalvagePromise, kits_read, empty_first, NumberStands, NumbersStand, KitsStand};

use answers::{Answer, Refusal, reply_of};
use ground::{clear, copy_in};
use index_append::append_row;
use nodes::{clear_nodes, node_count};
use register::{SLOT_BYTES, count_slots};
use sheet::{Report, Sheet, TWO_BYTES, Width, item_size, place_bytes, record_size, row_in, two_at};
use sheet_judge::{Found, judge, no_row};

// Sets the number that stands at a place of the sheet, with its length, into slot k: where it ends.
fn enter_number(reg: &mut [u8], s: &[u8], at: usize, k: usize) -> usize
    requires { NumberStands s.now at k reg.old }
    ensures next { result ≡ next_place s.now at }
    ensures entered { reg.new ≡ laid reg.old (k * slot_bytes) (number_item (number_here s.now at)) }
{
    let end = at + item_size(s, at);
    copy_in(reg, k * SLOT_BYTES, &s[at..end]);
    end
}

// Empties the register and fills it with the n numbers of the sheet: where they end.
#[tactic(auto, using(crate::proofs::Slots::entering_stands))]
fn fill_register(reg: &mut [u8], s: &[u8], n: usize) -> usize
    requires { NumbersStand s.now n reg.old }
    ensures ends { result ≡ end_at s.now head_bytes n }
    ensures filled { reg.new ≡ register_of (slot_count reg.old) (numbers_at s.now head_bytes n) }
{
    clear(reg);
    let mut at = Sheet::HEAD;
    for k in 0..n {
        at = enter_number(reg, s, at, k);
    }
    at
}

// Empties the node table and enters the m kits whose records stand from a place on, in sheet order.
fn fill_nodes(nodes: &mut [u16], s: &[u8], w: Width, from: usize, m: usize)
    requires { KitsStand (bytes_of w) s.now from m nodes.old }
    ensures { nodes.new ≡ enter_all (zeroed nodes.old) (kits_read (bytes_of w) s.now from m) }
{
    clear_nodes(nodes);
    let mut prev = no_row();
    let mut at = from;
    let mut n = 1;
    for k in 0..m {
        let row = row_in(s, at, w);
        n = append_row(nodes, prev, row, n, two_at(s, at));
        prev = row;
        at += record_size(s, at, w);
    }
}

// Whether the first of m kits whose records stand from a place on is empty. No other can be: an empty kit comes first in listing order.
fn first_empty(s: &[u8], w: Width, at: usize, m: usize) -> bool
    requires { 0 < m → WholeAt (bytes_of w) s.now at × (length (units (list_at (bytes_of w) s.now at)) ≤ most_units) }
    ensures { result ≡ empty_first (bytes_of w) s.now at m }
{
    0 < m && row_in(s, at, w).len == 0
}

// Empties the node table and enters those of m kits that have a unit, as `fill_nodes` does: how many.
fn fill_kits(nodes: &mut [u16], s: &[u8], w: Width, at: usize, m: usize) -> usize
    requires { KitsStand (bytes_of w) s.now at m nodes.old }
    ensures count { result ≡ length (with_units (kits_read (bytes_of w) s.now at m)) }
    ensures entered { nodes.new ≡ enter_all (zeroed nodes.old) (with_units (kits_read (bytes_of w) s.now at m)) }
{
    if first_empty(s, w, at, m) {
        let next = at + record_size(s, at, w);
        let rest = m - 1;
        fill_nodes(nodes, s, w, next, rest);
        return rest;
    }
    fill_nodes(nodes, s, w, at, m);
    m
}

// Empties both tables and fills them with the n parts of a sheet and those of its m kits that have a unit: how many kits.
#[tactic(auto, using(register::proofs::Sound::few_slots))]
pub fn fill(reg: &mut [u8], nodes: &mut [u16], s: &[u8], n: usize, m: usize) -> usize
    requires numbers { NumbersStand s.now n reg.old }
    requires kits { KitsStand (place_bytes n) s.now (end_at s.now head_bytes n + two_bytes) m nodes.old }
    ensures { (reg.new ≡ register_of (slot_count reg.old) (numbers_at s.now head_bytes n)) ×
        (result ≡ length (with_units (kits_read (place_bytes n) s.now (end_at s.now head_bytes n + two_bytes) m))) ×
        (nodes.new ≡ enter_all (zeroed nodes.old)
        (with_units (kits_read (place_bytes n) s.now (end_at s.now head_bytes n + two_bytes) m))) }
{
    let at = fill_register(reg, s, n);
    fill_kits(nodes, s, place_bytes(n as u16), at + TWO_BYTES, m)
}

// What the run keeps of a sheet: 12, or both tables filled with it.
fn take_in(reg: &mut [u8], nodes: &mut [u16], s: &[u8], found: Found) -> Answer
    requires register { register_length reg.old ≡ true }
    requires nodes { nodes_length nodes.old ≡ true }
    requires found { Ok found ≡ judged_of (salvage s.now) }
    ensures { TakePromise s.now (tables reg.old nodes.old) result (tables reg.new nodes.new) }
{
    let parts = usize::from(found.sheet.parts);
    if count_slots(reg) < parts {
        return Err(Refusal::NoRoom(parts));
    }
    if node_count(nodes) < found.run.nodes {
        return Err(Refusal::NoRoom(found.run.nodes));
    }
    Ok(fill(reg, nodes, s, parts, found.run.kept))
}

// Whether records are missing behind the run, or bytes remain.
fn is_torn(s: &[u8], found: Found) -> bool
    ensures { result ≡ (ltb found.run.kept found.sheet.kits || ltb found.run.end (length s.now)) }
{
    found.run.kept < usize::from(found.sheet.kits) || found.run.end < s.len()
}

// Reads a sheet into tables that have right lengths: kits read.
pub fn read_sheet(reg: &mut [u8], nodes: &mut [u16], s: &[u8]) -> Answer
    requires fact_1 { register_length reg.old ≡ true }
    requires fact_2 { nodes_length nodes.old ≡ true }
    ensures { ReadPromise s.now (tables reg.old nodes.old) result (tables reg.new nodes.new) }
{
    let found = judge(s).map_err(Refusal::Fault)?;
    if is_torn(s, found) {
        return Err(Refusal::Fault(found.run.end));
    }
    take_in(reg, nodes, s, found)
}

// What salvage answers: a number with its value, and three numbers.
#[derive(Clone, Copy)]
pub struct Salvaged {
    pub answer: Answer,
    pub report: Report,
}

// The report beside an answer: "a refused call reports 0 for kept and announced, with the refusal's value in the third place".
pub fn report_of(a: Answer, announced: usize, end: usize) -> Report
    ensures { (c : Contents) → result ≡ report_of (reply a) (record { kept = c; announced = announced; stopped = end }) }
{
    match a {
        Ok(value) => Report {
            kept: value,
            announced,
            third: end,
        },
        Err(_) => Report {
            kept: 0,
            announced: 0,
            third: reply_of(a).value,
        },
    }
}

// Fills tables that have right lengths with what is kept of a sheet, and reports it.
pub fn salvage(reg: &mut [u8], nodes: &mut [u16], s: &[u8]) -> Salvaged
    requires fact_1 { register_length reg.old ≡ true }
    requires fact_2 { nodes_length nodes.old ≡ true }
    ensures { SalvagePromise s.now (tables reg.old nodes.old) result
        (tables reg.new nodes.new) }
{
    match judge(s) {
        Err(o) => {
            let answer = Err(Refusal::Fault(o));
            Salvaged {
                answer,
                report: report_of(answer, 0, 0),
            }
        }
        Ok(found) => {
            let answer = take_in(reg, nodes, s, found);
            Salvaged {
                answer,
                report: report_of(answer, usize::from(found.sheet.kits), found.run.end),
            }
        }
    }
}
