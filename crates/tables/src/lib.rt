// Document 01, "Refusals": what the calls of the catalogue ask of the tables and the list that are lent to them, in the paper's order.
// (Casts here are bounded, which the check proves: `try_from` would add a refusal that cannot come, no plainer.)
#![tactic(auto)]

ghost use Rattle.std.specs.Prelude.{◌≡◌, length};
ghost use Rattle.ground.specs.Calls.{decide};
ghost use Rattle.register.specs.Register.{parts_of};
ghost use Rattle.register.specs.Inner.{Ready};
ghost use Rattle.kits.specs.Kits.{list_faults};
ghost use Rattle.ground.specs.Tables.{tables};
ghost use Rattle.tables.specs.Lent.{lengths, lent_both};
ghost use Rattle.answers.specs.Answers.{checked};

use answers::Refusal;

// "1 register, 1 nodes": the lengths alone.
pub fn check_lengths(reg: &[u8], nodes: &[u16]) -> Result<(), Refusal>
    ensures { checked result ≡ decide (lengths (tables reg.now nodes.now)) 0 }
{
    if !register::length_good(reg) {
        return Err(Refusal::WrongLength);
    }
    if !nodes::nodes_length_ok(nodes) {
        return Err(Refusal::WrongLength);
    }
    Ok(())
}

// "1 register, 1 nodes, 2 register, 2 nodes".
pub fn check_tables(reg: &[u8], nodes: &[u16]) -> Result<(), Refusal>
    ensures { checked result ≡ decide (lent_both (tables reg.now nodes.now)) 0 }
{
    check_lengths(reg, nodes)?;
    if !register::register_sound(reg) {
        return Err(Refusal::NotSound);
    }
    let parts = register::count_parts(reg) as u16;
    if !nodes_check::nodes_sound(nodes, parts) {
        return Err(Refusal::NotSound);
    }
    Ok(())
}

// "then 4 for odd length; then line by line 4, 5, 6".
pub fn check_lines(reg: &[u8], list: &[u16]) -> Result<(), Refusal>
    requires { Ready reg.now }
    ensures { checked result ≡ decide (list_faults (length (parts_of reg.now)) list.now) 0 }
{
    let parts = register::count_parts(reg) as u16;
    kits::check_list(list, parts)
}
