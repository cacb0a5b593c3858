//! Writing a store text.
ghost use Rattle.std.specs.Prelude.{◌≡◌, ◌≤◌, IfOk, Ok};
ghost use Rattle.serde_json.specs.View.{members_view, view};
ghost use Rattle.ha_clock.specs.Local.{last_moment};
ghost use Rattle.ha_config.specs.StoreText.{in_name_order, store_of};
ghost use Rattle.store_text.specs.Store.{AreMoments, AreStorable, by_names, moment_data, put_all, put_moments, store_data, stored_in};

use ha_clock::{Moment, print_moment};
use ha_value::Word;
use serde_json::{Map, Value};
use std::alloc::{AllocError, Global};

/// The store text of switches, one pair for each, in the byte order of the names, and of moments, whose names stand in that order. The
/// numbers of the switches' automations are not stored.
pub fn write_store(
    alloc: Global,
    switches: &[(u32, Word, bool)],
    last: &[(Word, Moment)],
) -> Result<Word, AllocError>
    requires switches { AreStorable (by_names switches.now) }
    requires last { AreMoments last.now }
    ensures text { IfOk result (λ w. w ≡ store_of (by_names switches.now) last.now) }
    ensures reads_back { IfOk result (λ w. stored_in w ≡ Ok (record { switches = in_name_order (by_names switches.now); last = last.now })) }
{
    let value = store_value(alloc, switches, last)?;
    let text = value.to_string(alloc)?;
    let word = Word::from_string(alloc, text)?;
    Ok(word)
}

/// The value whose text that is.
fn store_value(
    alloc: Global,
    switches: &[(u32, Word, bool)],
    last: &[(Word, Moment)],
) -> Result<Value, AllocError>
    requires { AreMoments last.now }
    ensures { IfOk result (λ v. view v ≡ store_data (by_names switches.now) last.now) }
{
    let moments = moments_object(alloc, last)?;
    let flags = flags_object(alloc, switches)?;
    let mut whole = Map::new(alloc);
    serde_json::put(&mut whole, alloc, "last", Value::Object(moments))?;
    serde_json::put(&mut whole, alloc, "switches", Value::Object(flags))?;
    serde_json::put(&mut whole, alloc, "version", Value::from(2u64))?;
    Ok(Value::Object(whole))
}

/// The flags as an object, which keeps its keys in order.
fn flags_object(
    alloc: Global,
    switches: &[(u32, Word, bool)],
) -> Result<Map<String, Value>, AllocError>
    ensures { IfOk result (λ m. members_view m.entries ≡ put_all (by_names switches.now)) }
{
    let mut flags = Map::new(alloc);
    let mut left = switches.len();
    while left > 0 {
        left -= 1;
        let switch = &switches[left];
        serde_json::put(&mut flags, alloc, switch.1.as_str(), Value::from(switch.2))?;
    }
    Ok(flags)
}

/// The text of a moment as a value.
fn moment_value(alloc: Global, at: Moment) -> Result<Value, AllocError>
    requires { at ≤ last_moment }
    ensures { IfOk result (λ v. view v ≡ moment_data at) }
{
    let shown = match print_moment(alloc, at) {
        Ok(shown) => shown,
        Err(_) => return Err(AllocError),
    };
    let word = Word::from_bytes(alloc, shown.as_slice())?;
    let text = word.into_string(alloc)?;
    Ok(Value::String(text))
}

/// The moments as an object, which keeps its keys in order.
fn moments_object(alloc: Global, last: &[(Word, Moment)]) -> Result<Map<String, Value>, AllocError>
    requires { AreMoments last.now }
    ensures { IfOk result (λ m. members_view m.entries ≡ put_moments last.now) }
{
    let mut moments = Map::new(alloc);
    let mut left = last.len();
    while left > 0 {
        left -= 1;
        let pair = &last[left];
        let value = moment_value(alloc, pair.1)?;
        serde_json::put(&mut moments, alloc, pair.0.as_str(), value)?;
    }
    Ok(moments)
}
