//! The meter: `meter`.
ghost use Rattle.std.specs.Prelude.{◌≤◌, IfSome};

use pc_rules::meter::{MOST_NESTED, Meter};
use row_files::{Case, Fault};
use std::alloc::AllocError;

/// Takes so many units, and tells how many could be taken and are left.
fn put_ticks(out: &mut String, m: &mut Meter, times: u32) -> Result<(), AllocError> {
    let mut taken: u32 = 0;
    for _ in 0..times {
        if m.tick() {
            taken = taken.saturating_add(1);
        }
    }
    let left = m.left();
    write!(out, "{taken} of {times} units, left {left}; ")
}

/// Enters so many rules, and tells how many could be entered, and for how many more there is room.
fn put_entries(out: &mut String, m: &mut Meter, times: u32) -> Result<(), AllocError> {
    let mut entered: u32 = 0;
    for _ in 0..times {
        if m.enter() {
            entered = entered.saturating_add(1);
        }
    }
    let room = m.room();
    write!(out, "{entered} of {times} rules, room {room}; ")
}

/// The number of a rule, if it is one.
fn rule_of(number: u32) -> Option<u8>
    ensures low { IfSome result (λ n. 1 ≤ n) }
    ensures high { IfSome result (λ n. n ≤ 12) }
{
    if 1 <= number && number <= 12 {
        Some(number as u8)
    } else {
        None
    }
}

/// Notes a use of a rule.
fn note(m: &mut Meter, number: u32) {
    if let Some(rule) = rule_of(number) {
        m.note(rule);
    }
}

/// How often a rule was used.
fn put_uses(out: &mut String, m: &Meter, number: u32) -> Result<(), AllocError> {
    match rule_of(number) {
        Some(rule) => {
            let uses = m.uses(rule);
            write!(out, "rule {rule} used {uses}; ")
        }
        None => Ok(()),
    }
}

/// Leaves a rule, if one stands.
fn put_left(out: &mut String, m: &mut Meter) -> Result<(), AllocError> {
    if m.room() < MOST_NESTED {
        m.leave();
    }
    let room = m.room();
    write!(out, "room {room}; ")
}

/// Does one of the row's lines with a meter, and tells what came.
fn put_metered(out: &mut String, m: &mut Meter, key: &str, number: u32) -> Result<(), AllocError> {
    match key {
        "tick" => put_ticks(out, m, number),
        "note" => {
            note(m, number);
            Ok(())
        }
        "uses" => put_uses(out, m, number),
        "enter" => put_entries(out, m, number),
        "leave" => put_left(out, m),
        _ => Ok(()),
    }
}

/// Does the row's lines `tick:`, `note:`, `uses:`, `enter:` and `leave:` in order, with a meter of `units`.
pub fn run_meter(case: &Case, out: &mut String) -> Result<(), Fault> {
    let mut m = Meter::new(case.row.number("units", 0)?);
    for field in case.row.fields() {
        if let Ok(number) = field.value.parse::<u32>() {
            put_metered(out, &mut m, field.key, number)?;
        }
    }
    Ok(out.push_str("done")?)
}
