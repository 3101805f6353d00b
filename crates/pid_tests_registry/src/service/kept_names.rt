//! The names that are kept in memory: how many, and which go first.
use crate::service::asking::{expect_line, first_word};
use pid_ident::{Name, NameText, Path, PathText};
use pid_lookup::{CAPACITY, NameCache};
use std::process::Abort;
use std::test::Fail;

// What is kept of a path, whose name is this one if it has one.
fn kept(cache: &mut NameCache, path: &Path, name: &Option<Name>) -> Result<&'static str, Fail> {
    match cache.get(path)? {
        None => Ok("nothing"),
        Some(None) => Ok("no name"),
        Some(found) => Ok(if found == *name {
            "its name"
        } else {
            "another name"
        }),
    }
}

fn expect_kept(
    rt: &impl Abort,
    cache: &mut NameCache,
    name: &Option<Name>,
    rows: &str,
) -> Result<(), Fail> {
    for row in rows.lines() {
        let (path, expected) = first_word(row);
        let path = Path::parse(path).ok_or("a path")?;
        expect_line(rt, kept(cache, &path, name)?, expected, row);
    }
    Ok(())
}

const EARLIER: &str = "\
PC/03cf nothing
PC/03d0 its name
";

const LATER: &str = "\
PD/02 no name
PS/0002/0003 nothing
PC/03d0 its name
PC/03d1 nothing
";

// After 2,000 vendors, of which the last is 07cf.
fn expect_latest(rt: &impl Abort, cache: &mut NameCache, name: &Option<Name>) -> Result<(), Fail> {
    assert!(rt; cache.len() as usize == CAPACITY);
    expect_kept(rt, cache, name, EARLIER)?;
    cache.put(&Path::Class { class: 2 }, &None);
    expect_kept(rt, cache, name, LATER)?;
    assert!(rt; cache.len() as usize == CAPACITY);
    cache.clear();
    assert!(rt; cache.len() == 0);
    expect_kept(rt, cache, name, "PD/02 nothing\n")
}

#[test]
fn keeps_the_latest_paths(rt: HostRuntime) -> Result<(), Fail> {
    let mut cache = NameCache::new(rt.alloc())?;
    assert!(rt; cache.len() == 0);
    let name = Some(Name::of(rt.alloc(), "one name")?);
    for vendor in 0u16..2000 {
        cache.put(&Path::Vendor { vendor }, &name);
    }
    expect_latest(&rt, &mut cache, &name)
}
