//! Worked numbers, texts, ids and lists, and each public call once with ample memory.
use ha_value::{
    Boxed, EntityFault, EntityId, Many, Num, NumFault, Plain, Value, Word, WordFault, push_text,
    push_value, says_yes_text,
};
use std::alloc::{AllocError, Global};
use std::cmp::Ordering;

fn is(found: Result<Num, NumFault>, wanted: Num) -> bool {
    match found {
        Ok(number) => number == wanted,
        Err(_) => false,
    }
}

fn is_range(found: Result<Num, NumFault>) -> bool {
    matches!(found, Err(NumFault::Range))
}

fn is_zero(found: Result<Num, NumFault>) -> bool {
    matches!(found, Err(NumFault::Zero))
}

#[test]
fn whole_arithmetic(rt: HostRuntime) {
    let (seven, two, three) = (Num::Whole(7), Num::Whole(2), Num::Whole(3));
    assert!(rt;
        is(Num::Whole(-7).floor_div(&two), Num::Whole(-4))
            && is(Num::Whole(-7).modulo(&three), Num::Whole(2))
            && is(seven.modulo(&Num::Whole(-3)), Num::Whole(-2))
            && is(seven.div(&two), Num::Fixed(3_500_000))
            && is(Num::Whole(10).div(&three), Num::Fixed(3_333_333))
            && is_range(Num::Whole(1_000_000_000_000).add(&Num::Whole(1)))
            && is_zero(Num::Whole(1).floor_div(&Num::Whole(0)))
            && is(seven.sub(&two), Num::Whole(5))
            && is(seven.mul(&Num::Fixed(500_000)), Num::Fixed(3_500_000))
    );
}

#[test]
fn single_numbers(rt: HostRuntime) {
    assert!(rt;
        Num::Fixed(2_500_000).round(0) == Num::Whole(2)
            && Num::Fixed(-1_250_000).round(1) == Num::Fixed(-1_200_000)
            && Num::Fixed(-2_900_000).to_whole() == Num::Whole(-2)
            && is(Num::Whole(-7).absolute(), Num::Whole(7))
            && is(Num::Whole(-7).negate(), Num::Whole(7))
            && is(Num::Whole(3).to_fixed(), Num::Fixed(3_000_000))
            && matches!(
                Num::Whole(3).compare(&Num::Fixed(3_000_000)),
                Ordering::Equal
            )
            && Num::Whole(-1).truth()
            && Num::Fixed(0).is_zero()
            && !Num::Whole(1_000_000_000_001).is_in_range()
    );
}

/// Whether each text is this number, or none.
fn are_read(rows: &[(&str, Option<Num>)]) -> bool {
    for row in rows {
        if Num::read(row.0.as_bytes()) != row.1 {
            return false;
        }
    }
    true
}

#[test]
fn number_texts(rt: HostRuntime) {
    assert!(rt;
        are_read(&[
            ("0.0000005", Some(Num::Fixed(0))),
            ("0.0000015", Some(Num::Fixed(2))),
            ("0.00000050001", Some(Num::Fixed(1))),
            ("+1000000000000", Some(Num::Whole(1_000_000_000_000))),
            (
                "-1000000000000.0000005",
                Some(Num::Fixed(-1_000_000_000_000_000_000))
            ),
            ("1000000000000.0000006", None),
            ("1000000000001", None),
            ("1.", None),
            ("1e3", None),
        ])
    );
}

/// Whether the number is printed so.
fn is_printed(alloc: Global, number: Num, wanted: &str) -> bool {
    match number.print(alloc) {
        Ok(text) => text.as_str() == wanted,
        Err(_) => false,
    }
}

#[test]
fn printed_numbers(rt: HostRuntime) {
    let alloc = rt.alloc();
    assert!(rt;
        is_printed(alloc, Num::Fixed(3_000_000), "3.0")
            && is_printed(alloc, Num::Fixed(-50_500), "-0.0505")
            && is_printed(alloc, Num::Whole(-12), "-12")
    );
}

/// A word that is put together of all kinds of parts.
fn cafe(alloc: Global) -> Result<Word, AllocError> {
    let mut word = Word::new(alloc);
    word.push_str("caf")?;
    word.push('\u{e9}')?;
    word.push_byte(b'!')?;
    word.push_bytes(b"")?;
    Ok(word)
}

/// Whether the word's bytes are read as the same word, and so is its copy.
fn is_read_again(alloc: Global, word: &Word) -> bool {
    match Word::read(alloc, word.bytes()) {
        Ok(read) => read.same(word),
        Err(_) => false,
    }
}

fn is_copied(alloc: Global, word: &Word) -> bool {
    match word.copy(alloc) {
        Ok(copied) => copied.same(word),
        Err(_) => false,
    }
}

/// Whether the word is this text, and becomes this string.
fn is_text(alloc: Global, word: Word, wanted: &str) -> bool {
    if word.as_str() != wanted {
        return false;
    }
    match word.into_string(alloc) {
        Ok(text) => text.as_str() == wanted,
        Err(_) => false,
    }
}

/// Whether the word of two bytes is their text.
fn is_of_bytes(alloc: Global) -> bool {
    match Word::from_bytes(alloc, b"ab") {
        Ok(word) => is_text(alloc, word, "ab"),
        Err(_) => false,
    }
}

/// Whether the word has six bytes, and is read again from them.
fn is_six(alloc: Global) -> bool {
    match cafe(alloc) {
        Ok(word) => word.len() == 6 && is_read_again(alloc, &word),
        Err(_) => false,
    }
}

#[test]
fn words(rt: HostRuntime) {
    let alloc = rt.alloc();
    assert!(rt;
        Word::new(alloc).is_empty()
            && is_six(alloc)
            && is_of_bytes(alloc)
            && matches!(Word::read(alloc, b"\xff"), Err(WordFault::NotUtf8))
    );
}

/// A text of 22 bytes, which stands in the word's own place, and one of 24.
fn grown(alloc: Global) -> Result<Word, AllocError> {
    let mut word = Word::from_str(alloc, "abcdefghijklmnopqrstuv")?;
    if word.len() == 22 {
        word.push_str("wx")?;
    }
    Ok(word)
}

/// Whether the word and its copy are this text.
fn is_grown(alloc: Global, wanted: &str) -> bool {
    match grown(alloc) {
        Ok(word) => is_copied(alloc, &word) && is_text(alloc, word, wanted),
        Err(_) => false,
    }
}

#[test]
fn short_and_long_words(rt: HostRuntime) {
    assert!(rt; is_grown(rt.alloc(), "abcdefghijklmnopqrstuvwx"));
}

/// Whether the text is the id of an object of this name, and is printed as it stands; the copy is the same.
fn is_id(alloc: Global, text: &str, object: &str) -> Result<bool, AllocError> {
    let Ok(id) = EntityId::read(alloc, text.as_bytes()) else {
        return Ok(false);
    };
    let printed = id.print(alloc)?;
    let copied = id.copy(alloc)?;
    Ok(id.object() == object && printed.as_str() == text && copied.same(&id))
}

fn is_no_id(alloc: Global, text: &str) -> bool {
    matches!(
        EntityId::read(alloc, text.as_bytes()),
        Err(EntityFault::Shape)
    )
}

#[test]
fn ids(rt: HostRuntime) {
    let alloc = rt.alloc();
    assert!(rt;
        is_id(alloc, "light.hall_2", "hall_2").unwrap_or(false)
            && is_id(
                alloc,
                "binary_sensor.kitchen_ceiling_motion_detector_2",
                "kitchen_ceiling_motion_detector_2"
            )
            .unwrap_or(false)
            && is_no_id(alloc, "Light")
            && is_no_id(alloc, "light.Hall")
    );
}

/// Whether a text has this truth, and says yes or does not.
fn is_truth(alloc: Global, text: &str, truth: bool, yes: bool) -> Result<bool, AllocError> {
    let text = Value::Text(Word::from_str(alloc, text)?);
    Ok(text.truth() == truth && text.says_yes() == yes)
}

/// A list of one value that is none.
fn list_of_none(alloc: Global) -> Result<Many<Value>, AllocError> {
    let mut items = Many::with_room(alloc, 1)?;
    items.push(Value::Null)?;
    Ok(items)
}

/// Whether that list is true, says no, and is the same as its copy.
fn is_true_list(alloc: Global) -> Result<bool, AllocError> {
    let list = Value::Items(list_of_none(alloc)?);
    let copied = list.copy(alloc)?;
    Ok(list.truth() && !list.says_yes() && copied.same(&list))
}

#[test]
fn truths(rt: HostRuntime) {
    let alloc = rt.alloc();
    assert!(rt;
        says_yes_text(b" \tEnable ")
            && !says_yes_text(b"0.0")
            && Value::Number(Num::Whole(2)).says_yes()
            && is_truth(alloc, "off", true, false).unwrap_or(false)
            && is_true_list(alloc).unwrap_or(false)
    );
}

/// Whether the value is this text.
fn is_text_value(value: &Value, wanted: &str) -> bool {
    match value {
        Value::Text(text) => text.as_str() == wanted,
        _ => false,
    }
}

/// Whether a text is copied into the place of another, as a word and as a value.
fn is_copied_over(alloc: Global, text: &str, other: &str) -> Result<bool, AllocError> {
    let word = Word::from_str(alloc, text)?;
    let mut place = Word::from_str(alloc, other)?;
    word.copy_to(alloc, &mut place)?;
    let mut value = Value::Text(Word::from_str(alloc, other)?);
    Value::Text(word).copy_to(alloc, &mut value)?;
    Ok(place.as_str() == text && is_text_value(&value, text))
}

fn are_copied_over(alloc: Global, texts: &[&str]) -> Result<bool, AllocError> {
    for text in texts {
        for other in texts {
            if !is_copied_over(alloc, text, other)? {
                return Ok(false);
            }
        }
    }
    Ok(true)
}

/// Whether a short text is written over each of the others, and over a number.
fn is_set_over(alloc: Global, others: &[&str]) -> Result<bool, AllocError> {
    let mut value = Value::Number(Num::Whole(2));
    value.set_short_text(alloc, "on");
    let mut set = is_text_value(&value, "on");
    for other in others {
        let mut word = Word::from_str(alloc, other)?;
        word.set_short("off");
        let mut value = Value::Text(Word::from_str(alloc, other)?);
        value.set_short_text(alloc, "");
        set = set && word.as_str() == "off" && is_text_value(&value, "");
    }
    Ok(set)
}

#[test]
fn words_over_words(rt: HostRuntime) {
    let alloc = rt.alloc();
    let texts = [
        "",
        "on",
        "abcdefghijklmnopqrstuv",
        "abcdefghijklmnopqrstuvw",
        "the lamp of the hall of the house",
    ];
    assert!(rt;
        are_copied_over(alloc, &texts).unwrap_or(false)
            && is_set_over(alloc, &texts).unwrap_or(false)
    );
}

/// Two pairs, of which the first has a long name and a long text.
fn two_pairs(alloc: Global) -> Result<Many<(Word, Value)>, AllocError> {
    let mut pairs = Many::make(alloc);
    push_text(
        alloc,
        &mut pairs,
        "name_of_the_lamp_of_the_hall",
        "the lamp of the hall",
    )?;
    push_value(alloc, &mut pairs, "level", Value::Number(Num::Whole(40)))?;
    Ok(pairs)
}

fn is_pair(pair: Option<&(Word, Value)>, name: &str, value: &Value) -> bool {
    match pair {
        Some(pair) => pair.0.as_str() == name && pair.1.same(value),
        None => false,
    }
}

fn are_two(alloc: Global) -> Result<bool, AllocError> {
    let pairs = two_pairs(alloc)?;
    let text = Value::Text(Word::from_str(alloc, "the lamp of the hall")?);
    Ok(
        pairs.len() == 2
            && is_pair(pairs.get(0), "name_of_the_lamp_of_the_hall", &text)
            && is_pair(pairs.get(1), "level", &Value::Number(Num::Whole(40))),
    )
}

/// A value of each kind.
fn kinds(alloc: Global) -> Result<Many<Value>, AllocError> {
    let mut kinds = Many::make(alloc);
    kinds.push(Value::Null)?;
    kinds.push(Value::Flag(true))?;
    kinds.push(Value::Number(Num::Whole(2)))?;
    kinds.push(Value::Text(Word::from_str(alloc, "on")?))?;
    kinds.push(Value::Items(list_of_none(alloc)?))?;
    kinds.push(Value::Pairs(two_pairs(alloc)?))?;
    Ok(kinds)
}

/// Whether each value, copied into the place of each, is itself and none of the others.
fn is_each_copied(alloc: Global, kinds: &[Value]) -> Result<bool, AllocError> {
    for from in 0..kinds.len() {
        for other in 0..kinds.len() {
            let mut place = kinds[other].copy(alloc)?;
            kinds[from].copy_to(alloc, &mut place)?;
            for at in 0..kinds.len() {
                if place.same(&kinds[at]) != (at == from) {
                    return Ok(false);
                }
            }
        }
    }
    Ok(true)
}

fn are_kinds_copied(alloc: Global) -> Result<bool, AllocError> {
    is_each_copied(alloc, kinds(alloc)?.as_slice())
}

#[test]
fn values_over_values(rt: HostRuntime) {
    let alloc = rt.alloc();
    assert!(rt; are_two(alloc).unwrap_or(false) && are_kinds_copied(alloc).unwrap_or(false));
}

/// A list of three numbers, of which the second came last and the first was set anew.
fn three(alloc: Global) -> Result<Many<u32>, AllocError> {
    let mut list = Many::make(alloc);
    list.push(1)?;
    list.push(2)?;
    list.insert(1, 5)?;
    list.set(0, 7);
    Ok(list)
}

/// A list with its copy behind it, once its second item is gone.
fn twice(alloc: Global, mut list: Many<u32>) -> Result<Many<u32>, AllocError> {
    if list.len() != 3 || list.remove(1) != 5 {
        return Ok(Many::make(alloc));
    }
    let more = list.copy(alloc)?;
    list.append(more)?;
    Ok(list)
}

/// Whether the list loses its last item, is cut to two, and to none.
fn is_cut(mut list: Many<u32>) -> bool {
    if list.len() != 4 || list.pop() != Some(2) {
        return false;
    }
    list.truncate(2);
    if list.len() != 2 || list.get(1).copied() != Some(2) {
        return false;
    }
    list.clear();
    Many::from_vec(list.into_vec()).fitted().is_empty()
}

fn is_held(alloc: Global) -> Result<bool, AllocError> {
    let held = Boxed::new(alloc, Some(true))?;
    let copied = held.copy(alloc)?;
    Ok(copied.same(&held) && held.into_inner() == Some(true))
}

/// Whether the list is these three, and is cut as it should be once it stands twice.
fn is_list(alloc: Global, wanted: &[u32]) -> Result<bool, AllocError> {
    let list = three(alloc)?;
    if list.as_slice() != wanted {
        return Ok(false);
    }
    Ok(is_cut(twice(alloc, list)?))
}

#[test]
fn lists(rt: HostRuntime) {
    let alloc = rt.alloc();
    assert!(rt; is_list(alloc, &[7, 5, 2]).unwrap_or(false) && is_held(alloc).unwrap_or(false));
}
