//! Forms of JSON.

use days_core::{Day, Month};
use json_form::{
    ArrayOf, Form, FormFault, Formed, Members, Within, number_field, object, only, optional_field,
    value_of_bytes,
};
use plain_data::{Listed, NoMemory, Text};
use serde_json::Value;
use std::alloc::Global;

fn read<T: Formed>(alloc: Global, text: &str) -> Result<T, FormFault> {
    let value = value_of_bytes(alloc, text.as_bytes())?;
    T::of_value(alloc, &value)
}

fn is_read<T: Formed>(alloc: Global, text: &str) -> bool {
    read::<T>(alloc, text).is_ok()
}

fn is_bad_at<T: Drop>(read: Result<T, FormFault>, path: &str) -> bool {
    match read {
        Err(FormFault::BadField(found)) => found.as_str() == path,
        _ => false,
    }
}

fn flag_of(alloc: Global, value: &Value) -> Result<Option<bool>, FormFault> {
    object(alloc, value)?;
    number_field(alloc, value, "count", 3, 9)?;
    let flag = optional_field(alloc, value, "flag")?;
    only(alloc, value, &["count", "flag"])?;
    Ok(flag)
}

fn read_flag(alloc: Global, text: &str) -> Result<Option<bool>, FormFault> {
    let value = value_of_bytes(alloc, text.as_bytes())?;
    flag_of(alloc, &value)
}

fn read_pair(alloc: Global, text: &str) -> Result<[u32; 2], FormFault> {
    let pair = ArrayOf {
        each: Within { least: 1, most: 9 },
    };
    pair.read(alloc, &value_of_bytes(alloc, text.as_bytes())?)
}

#[test]
fn reads_each_kind(rt: HostRuntime) {
    let alloc = rt.alloc();
    assert!(rt; is_read::<bool>(alloc, "true"));
    assert!(rt; is_read::<Text>(alloc, "\"Ada\""));
    assert!(rt; is_read::<Day>(alloc, "\"1953-06-01\""));
    assert!(rt; is_read::<Month>(alloc, "\"1953-06\""));
    assert!(rt; is_read::<Listed<Listed<u32>>>(alloc, "[[1,2],[4294967295]]"));
    assert!(rt; read_pair(alloc, "[5,6]").is_ok());
    assert!(rt; read_flag(alloc, "{\"count\":3}").ok() == Some(None));
    let flag = read_flag(alloc, "{\"count\":9,\"flag\":true}");
    assert!(rt; flag.ok() == Some(Some(true)));
}

const BAD_NUMBERS: [(&str, &str); 7] = [
    ("[4294967296]", "[0]"),
    ("[1,1.0]", "[1]"),
    ("[1e2]", "[0]"),
    ("[-0]", "[0]"),
    ("{}", ""),
    ("[1,]", ""),
    ("[1] 2", ""),
];

const BAD_FLAGS: [(&str, &str); 6] = [
    ("[]", ""),
    ("{}", "count"),
    ("{\"count\":2,\"flag\":1}", "count"),
    ("{\"count\":10}", "count"),
    ("{\"count\":9,\"flag\":1}", "flag"),
    ("{\"count\":9,\"flags\":true}", "?"),
];

#[test]
fn tells_the_first_bad_path(rt: HostRuntime) {
    let alloc = rt.alloc();
    for (text, path) in &BAD_NUMBERS {
        let numbers = read::<Listed<u32>>(alloc, *text);
        assert!(rt; is_bad_at(numbers, *path), "{text}");
    }
    for (text, path) in &BAD_FLAGS {
        assert!(rt; is_bad_at(read_flag(alloc, *text), *path), "{text}");
    }
    let rows = read::<Listed<Listed<bool>>>(alloc, "[[],[true,0]]");
    assert!(rt; is_bad_at(rows, "[1][1]"));
    assert!(rt; is_bad_at(read_pair(alloc, "[5]"), ""));
}

fn written(alloc: Global) -> Result<Text, NoMemory> {
    let rows = Listed::new([5u32, 6].to_vec(alloc)?);
    let members = Members::new(alloc)
        .with("open", &true)?
        .with("name", &"Ada")?
        .with("count", &7u32)?
        .with("born", &Day::from_number(0).unwrap())?
        .with("rows", &rows)?
        .with("count", &u32::MAX)?;
    members.done().text(alloc)
}

#[test]
fn writes_each_kind(rt: HostRuntime) {
    let text = written(rt.alloc()).expect(&rt, "memory");
    let wanted =
        "{\"born\":\"1880-01-01\",\"count\":4294967295,\"name\":\"Ada\",\"open\":true,\"rows\":[5,6]}";
    assert!(rt; text.as_bytes() == wanted.as_bytes());
}
