// Request 8, "The maker's number beside ours": a second table of the register's layout, the maker's, and the calls that are lent the register and it.
// None of the public calls `zero_makers`, `set_maker`, `clear_maker`, `label_answer` and `label` has a `requires`.
#![tactic(auto)]

ghost use Rattle.std.specs.Prelude.{◌≡◌, true, ◌*◌, ◌<◌, ◌≤◌, replicate};
ghost use Rattle.ground.specs.Lists.{allb, from};
ghost use Rattle.ground.specs.Laid.{laid};
ghost use Rattle.ground.specs.Stretch.{Stretch};
ghost use Rattle.ground.specs.Calls.{Promise, answer, decide};
ghost use Rattle.answers.specs.Answers.{checked, reply};
ghost use Rattle.register.specs.Register.{slot_bytes, slot_count, register_length};
ghost use Rattle.makers.specs.Makers.{makers_length, makers_sound, zero_or_good};
ghost use Rattle.makers.specs.Calls.{beside, beside_lengths, lent_beside, zeroing_makers, setting_maker, clearing_maker, showing_label};
ghost use Rattle.makers.specs.Calls.{holder, label_from, label_size};

use answers::{Answer, Refusal};
use ground::{clear, zeros};
use register::{
    SLOT_BYTES, count_parts, count_slots, good_number, length_at, length_good, no_part, number_at,
    put_slot, register_sound, slot_good,
};

// Whether the maker's table has a length that is allowed, and as many slots as the register.
#[tactic(auto, unfolding(crate::specs::Makers::makers_length, ground::specs::Lists::every))]
fn makers_length_good(reg: &[u8], makers: &[u8]) -> bool
    ensures { result ≡ makers_length reg.now makers.now }
{
    length_good(makers) && count_slots(makers) == count_slots(reg)
}

// Whether slot k is all zeros or holds a good number followed by zeros.
#[tactic(auto, using(register::proofs::Slots::slot_part), unfolding(crate::specs::Makers::zero_or_good))]
fn zero_or_good(makers: &[u8], k: usize) -> bool
    requires { k < slot_count makers.now }
    ensures { result ≡ zero_or_good makers.now k }
{
    let at = k * SLOT_BYTES;
    let slot = &makers[at..at + SLOT_BYTES];
    zeros(slot) || slot_good(slot)
}

// Whether each of the first m slots is so.
fn first_good(makers: &[u8], m: usize) -> bool
    requires { m ≤ slot_count makers.now }
    ensures { result ≡ allb (zero_or_good makers.now) (from 0 m) }
{
    (0..m).all(|k| zero_or_good(makers, k))
}

// Whether the maker's table is sound beside so many parts.
fn makers_sound(makers: &[u8], parts: usize) -> bool
    requires sized { register_length makers.now ≡ true }
    requires within { parts ≤ slot_count makers.now }
    ensures { result ≡ makers_sound parts makers.now }
{
    first_good(makers, parts) && zeros(&makers[parts * SLOT_BYTES..])
}

// "1 for each, for the second also where slot counts differ".
#[tactic(auto, unfolding(ground::specs::Calls::decide, crate::specs::Calls::beside_lengths))]
fn check_sizes(reg: &[u8], makers: &[u8]) -> Result<(), Refusal>
    ensures { checked result ≡ decide (beside_lengths (beside reg.now makers.now)) 0 }
{
    if !length_good(reg) {
        return Err(Refusal::WrongLength);
    }
    if !makers_length_good(reg, makers) {
        return Err(Refusal::WrongLength);
    }
    Ok(())
}

// "then 2 for each".
fn check_beside(reg: &[u8], makers: &[u8]) -> Result<(), Refusal>
    ensures { checked result ≡ decide (lent_beside (beside reg.now makers.now)) 0 }
{
    check_sizes(reg, makers)?;
    if !register_sound(reg) {
        return Err(Refusal::NotSound);
    }
    if !makers_sound(makers, count_parts(reg)) {
        return Err(Refusal::NotSound);
    }
    Ok(())
}

// Makes slot k all zeros.
fn clear_slot(makers: &mut [u8], k: usize)
    requires { k < slot_count makers.old }
    ensures { makers.new ≡ laid makers.old (k * slot_bytes) (replicate slot_bytes 0) }
{
    let at = k * SLOT_BYTES;
    clear(&mut makers[at..at + SLOT_BYTES]);
}

// Zeroes the maker's table whole.
pub fn zero_makers(reg: &[u8], makers: &mut [u8]) -> Answer
    ensures { Promise (zeroing_makers (beside reg.now makers.old)) makers.old (reply result) makers.new }
{
    check_sizes(reg, makers)?;
    clear(makers);
    Ok(0)
}

// Whether a place has something to show: the answer number of `label`.
pub fn label_answer(reg: &[u8], makers: &[u8], place: u16) -> Answer
    ensures { reply result ≡ answer (showing_label place (beside reg.now makers.now)) }
{
    check_beside(reg, makers)?;
    if no_part(reg, place) {
        return Err(Refusal::NotHeld(0));
    }
    Ok(0)
}

// Clears the maker's number of a place, whether or not one is set.
pub fn clear_maker(reg: &[u8], makers: &mut [u8], place: u16) -> Answer
    ensures { Promise (clearing_maker place (beside reg.now makers.old)) makers.old (reply result) makers.new }
{
    label_answer(reg, makers, place)?;
    clear_slot(makers, usize::from(place) - 1);
    Ok(0)
}

// Sets the maker's number of a place, in place of what was set.
pub fn set_maker(reg: &[u8], makers: &mut [u8], place: u16, num: &[u8]) -> Answer
    ensures { Promise (setting_maker place num.now (beside reg.now makers.old)) makers.old
        (reply result) makers.new }
{
    label_answer(reg, makers, place)?;
    if !good_number(num) {
        return Err(Refusal::BadNumber);
    }
    let k = usize::from(place) - 1;
    clear_slot(makers, k);
    put_slot(makers, k, num);
    Ok(0)
}

// Shows the maker's number of a place if set and otherwise ours: the very stretch of the table that holds it; an empty one where refused.
pub fn label<'a>(reg: &'a [u8], makers: &'a [u8], place: u16) -> &'a [u8]
    ensures { Stretch (holder place (beside reg.now makers.now) reg.entry makers.entry) result
        (label_from place (beside reg.now makers.now)) (label_size place (beside reg.now makers.now)) }
{
    let Ok(_) = label_answer(reg, makers, place) else {
        return &reg[..0];
    };
    let k = usize::from(place) - 1;
    if length_at(makers, k) == 0 {
        return number_at(reg, k);
    }
    number_at(makers, k)
}
