//! The disk stops at a call, and fails each one after: what opening then finds. The contracts say
//! what a crash may leave; these tests show that the calls get there, over files in memory that keep
//! what was synced alone.
use crate::service::asking::{expect_line, expect_told, opened, owned, told};
use crate::service::rows::OLDER;
use pid_moderation::Refusal;
use pid_service::{Registry, Step, migrate, open};
use pid_tables::{TableFault, WritableDatabase};
use sqlite::{Alter, Connection, FileStore, Files, Options};
use sqlite_disk::{Crash, Disk, Fuse, Memory};
use std::alloc::Global;
use std::process::Abort;
use std::test::Fail;

/// The bytes of a database and of its log.
#[derive(Drop)]
pub(crate) struct Held {
    log: Vec<u8>,
    db: Vec<u8>,
}

/// Files that were never opened.
pub(crate) fn nothing(alloc: Global) -> Held {
    Held {
        log: Vec::new(alloc),
        db: Vec::new(alloc),
    }
}

/// How many calls of each file go well.
#[derive(Clone, Copy)]
pub(crate) struct Calls {
    log: u64,
    db: u64,
}

pub(crate) const ALL: Calls = Calls {
    log: u64::MAX,
    db: u64::MAX,
};

type Stopping = Fuse<Memory>;

// A file in memory with these bytes.
fn file_with(alloc: Global, bytes: &[u8]) -> Result<Memory, Fail> {
    let mut file = Memory::new(alloc);
    file.write_at(0, bytes)?;
    file.sync()?;
    Ok(file)
}

// Files that hold these bytes.
fn laid(alloc: Global, held: &Held, calls: Calls) -> Result<Files<Stopping>, Fail> {
    let log = file_with(alloc, held.log.as_slice())?;
    let db = file_with(alloc, held.db.as_slice())?;
    Ok(Files {
        log: Fuse::new(log, calls.log),
        db: Fuse::new(db, calls.db),
    })
}

// A log of so few pages is copied into the database at nearly each commit, so that both files are written.
fn options() -> Options {
    Options {
        cache_pages: 16,
        spill_pages: 64,
        checkpoint_frames: 8,
        ..Options::new(7)
    }
}

// What is asked of a connection: a row, and what is shown before and after it; the last row; what is
// found after the last row, which was answered so; or the tables of schema 1.
#[derive(Clone, Copy)]
enum Task<'a> {
    Whole(&'a str),
    Last(&'a str),
    Found(&'a str, &'a str, &'a Whole),
    Older,
}

fn done<S: Alter + Drop>(
    rt: &impl Abort,
    alloc: Global,
    conn: Connection<S>,
    task: Task<'_>,
) -> Result<(Whole, Connection<S>), Fail> {
    match task {
        Task::Whole(row) => whole_row(alloc, conn, row),
        Task::Last(row) => answered(rt, alloc, conn, row),
        Task::Found(row, line, whole) => expect_kept(rt, alloc, conn, row, line, whole),
        Task::Older => older(alloc, conn),
    }
}

// Does a task over files, if they can be opened, and closes them. No other function names the
// connection to them: each that does costs the proof its drops.
fn over_files(
    rt: &impl Abort,
    alloc: Global,
    files: Files<Stopping>,
    task: Task<'_>,
) -> Result<(Option<Whole>, Files<Stopping>), Fail> {
    if !files.may_be_used() {
        return Ok((None, files));
    }
    match Connection::open_files(alloc, files, options()) {
        Ok(conn) => {
            let (whole, conn) = done(rt, alloc, conn, task)?;
            Ok((Some(whole), conn.into_store().close()))
        }
        Err((_, left)) => Ok((None, left.into_files())),
    }
}

// Whether a further call fails.
fn has_stopped(files: &mut Files<Stopping>) -> bool {
    !files.may_be_used() || files.log.len().is_err() || files.db.len().is_err()
}

// The machine comes back with what was synced, and does not stop any more.
fn crash(files: &mut Files<Stopping>) {
    files.log.crash();
    files.db.crash();
}

fn bytes_of(alloc: Global, files: &Files<Stopping>) -> Result<Held, Fail> {
    Ok(Held {
        log: files.log.inner().bytes().to_vec(alloc)?,
        db: files.db.inner().bytes().to_vec(alloc)?,
    })
}

// What an answer is replaced by if there is none.
const NOT_TOLD: &str = "not told";

/// Whether a row was answered, and not refused for memory or by the store.
pub(crate) fn is_answered(line: &str) -> bool {
    !matches!(
        line,
        NOT_TOLD | "refused 16 Memory" | "refused 17 Store" | "refused 18 Failed"
    )
}

// The answer to a row, if neither memory nor the store refuses it.
fn answer_to<C: WritableDatabase + Drop>(
    registry: &mut Registry<C>,
    alloc: Global,
    row: &str,
) -> Result<String, Fail> {
    let line = told(registry, alloc, row)?;
    if is_answered(line.as_str()) {
        Ok(line)
    } else {
        Err(Fail::new("no answer"))
    }
}

// What a registry shows: its items, its first submission, what is pending, and the numbers of its changes.
fn shown<C: WritableDatabase + Drop>(
    registry: &mut Registry<C>,
    alloc: Global,
) -> Result<String, Fail> {
    let mut all = String::new(alloc);
    for row in ["export", "submission 1", "pending 0", "changes 0"] {
        all.push_str(answer_to(registry, alloc, row)?.as_str())?;
        all.push('|')?;
    }
    Ok(all)
}

/// What a row is answered, and what the registry shows before and after it, if that is asked too.
#[derive(Drop)]
pub(crate) struct Whole {
    before: String,
    pub(crate) reply: String,
    after: String,
}

// An answer alone.
fn answer_alone(alloc: Global, reply: String) -> Whole {
    Whole {
        before: String::new(alloc),
        reply,
        after: String::new(alloc),
    }
}

fn no_answer(alloc: Global) -> Result<Whole, Fail> {
    Ok(answer_alone(alloc, owned(alloc, NOT_TOLD)?))
}

fn asked_whole<C: WritableDatabase + Drop>(
    registry: &mut Registry<C>,
    alloc: Global,
    row: &str,
) -> Result<Whole, Fail> {
    let before = shown(registry, alloc)?;
    let reply = answer_to(registry, alloc, row)?;
    let after = shown(registry, alloc)?;
    Ok(Whole {
        before,
        reply,
        after,
    })
}

fn whole_row<C: WritableDatabase + Drop>(
    alloc: Global,
    conn: C,
    row: &str,
) -> Result<(Whole, C), Fail> {
    let mut registry = opened(alloc, conn)?;
    let whole = asked_whole(&mut registry, alloc, row)?;
    Ok((whole, registry.close()))
}

/// A row over files without a stop, and what they hold after it.
pub(crate) fn undisturbed(
    rt: &impl Abort,
    alloc: Global,
    held: &Held,
    row: &str,
) -> Result<(Whole, Held), Fail> {
    let files = laid(alloc, held, ALL)?;
    let (whole, files) = over_files(rt, alloc, files, Task::Whole(row))?;
    let after = bytes_of(alloc, &files)?;
    match whole {
        Some(whole) => Ok((whole, after)),
        None => Err(Fail::new("a connection")),
    }
}

// What a registry answers that has failed; `FAILED` of tests/support/http_rows.py has all that a
// program asks.
const FAILED: &str = "\
import root 8086  Intel | refused 18 Failed
export | refused 18 Failed
";

// Asserts that memory ran out or the store failed.
fn expect_passing(rt: &impl Abort, fault: TableFault) {
    assert!(rt;
        matches!(fault, TableFault::Memory | TableFault::Store),
        "{fault}"
    );
}

// Opens the connection that a failed opening or a failed registry handed back. It may be shut, but nothing is damaged.
fn opened_again<C: WritableDatabase + Drop>(rt: &impl Abort, alloc: Global, conn: C) -> C {
    assert!(rt; conn.is_autocommit(), "a transaction is left");
    match open(alloc, conn) {
        Ok(registry) => registry.close(),
        Err((fault, conn)) => {
            expect_passing(rt, fault);
            conn
        }
    }
}

// Moves the tables. If it failed, memory ran out or the store failed.
fn migrated<C: WritableDatabase + Drop>(rt: &impl Abort, alloc: Global, conn: C) -> C {
    match migrate(alloc, conn) {
        Ok((conn, step)) => {
            assert!(rt; step == Step::Moved);
            conn
        }
        Err((fault, conn)) => {
            expect_passing(rt, fault);
            opened_again(rt, alloc, conn)
        }
    }
}

// The answer of a registry to the last row. One that has failed then says so.
fn last_answer<C: WritableDatabase + Drop>(
    rt: &impl Abort,
    alloc: Global,
    registry: &mut Registry<C>,
    last: &str,
) -> Result<Whole, Fail> {
    let line = told(registry, alloc, last)?;
    if !registry.is_live() {
        expect_told(rt, alloc, registry, FAILED)?;
        assert!(rt; matches!(registry.run(&[]).fault, Some(Refusal::Failed)));
    }
    Ok(answer_alone(alloc, line))
}

// What the last row is answered, and the connection after it, which can be opened again if the
// registry has failed.
fn answer_over<C: WritableDatabase + Drop>(
    rt: &impl Abort,
    alloc: Global,
    registry: Registry<C>,
    last: &str,
) -> Result<(Whole, C), Fail> {
    let mut registry = registry;
    let answer = last_answer(rt, alloc, &mut registry, last)?;
    if registry.is_live() {
        Ok((answer, registry.close()))
    } else {
        Ok((answer, opened_again(rt, alloc, registry.close())))
    }
}

// The same of a connection. `migrate` moves the tables and is answered nothing, as is a row of a
// registry that was not opened.
fn answered<C: WritableDatabase + Drop>(
    rt: &impl Abort,
    alloc: Global,
    conn: C,
    last: &str,
) -> Result<(Whole, C), Fail> {
    assert!(rt; conn.is_autocommit(), "a transaction is left");
    if last == "migrate" {
        return Ok((no_answer(alloc)?, migrated(rt, alloc, conn)));
    }
    match open(alloc, conn) {
        Ok(registry) => answer_over(rt, alloc, registry, last),
        Err((fault, conn)) => {
            expect_passing(rt, fault);
            Ok((no_answer(alloc)?, opened_again(rt, alloc, conn)))
        }
    }
}

/// What the last row is answered over files of which so many calls go well, whether they met no
/// stop, and what the machine comes back with.
pub(crate) fn crashed(
    rt: &impl Abort,
    alloc: Global,
    held: &Held,
    calls: Calls,
    last: &str,
) -> Result<(Whole, bool, Held), Fail> {
    let files = laid(alloc, held, calls)?;
    let (answer, mut files) = over_files(rt, alloc, files, Task::Last(last))?;
    let is_whole = !has_stopped(&mut files);
    crash(&mut files);
    let found = bytes_of(alloc, &files)?;
    match answer {
        Some(answer) => Ok((answer, is_whole, found)),
        None => Ok((no_answer(alloc)?, is_whole, found)),
    }
}

// What is found is what was shown before the last row or after it, and after it if that was
// answered.
fn expect_either(rt: &impl Abort, found: &str, last: &str, line: &str, whole: &Whole) {
    if is_answered(line) {
        expect_line(rt, line, whole.reply.as_str(), last);
        expect_line(rt, found, whole.after.as_str(), last);
    } else if found != whole.before.as_str() {
        expect_line(rt, found, whole.after.as_str(), last);
    }
}

// Opened again, the registry is as before the last row or after it; sent again, the row is answered
// as without a stop.
fn expect_kept<C: WritableDatabase + Drop>(
    rt: &impl Abort,
    alloc: Global,
    conn: C,
    last: &str,
    line: &str,
    whole: &Whole,
) -> Result<(Whole, C), Fail> {
    let mut registry = opened(alloc, conn)?;
    let again = asked_whole(&mut registry, alloc, last)?;
    expect_either(rt, again.before.as_str(), last, line, whole);
    expect_line(rt, again.reply.as_str(), whole.reply.as_str(), last);
    expect_line(rt, again.after.as_str(), whole.after.as_str(), last);
    Ok((again, registry.close()))
}

/// The same of the files that the machine comes back with.
pub(crate) fn expect_found(
    rt: &impl Abort,
    alloc: Global,
    found: &Held,
    last: &str,
    line: &str,
    whole: &Whole,
) -> Result<(), Fail> {
    let files = laid(alloc, found, ALL)?;
    let (found, _) = over_files(rt, alloc, files, Task::Found(last, line, whole))?;
    match found {
        Some(_) => Ok(()),
        None => Err(Fail::new("a connection")),
    }
}

// More calls than a run makes of either file.
const MOST: u64 = 5_000;

fn stop_at(of_log: bool, calls: u64) -> Calls {
    if of_log {
        Calls {
            log: calls,
            db: u64::MAX,
        }
    } else {
        Calls {
            log: u64::MAX,
            db: calls,
        }
    }
}

// One stop, and whether there was none within so many calls. The other row is asked after a restart.
fn stop_once(
    rt: &impl Abort,
    alloc: Global,
    held: &Held,
    calls: Calls,
    rows: (&str, &str),
    whole: &Whole,
) -> Result<bool, Fail> {
    let (answer, is_whole, found) = crashed(rt, alloc, held, calls, rows.0)?;
    expect_found(rt, alloc, &found, rows.1, answer.reply.as_str(), whole)?;
    Ok(is_whole)
}

// Stops one of the files at each call of opening and of a row.
fn stop_each(
    rt: &impl Abort,
    alloc: Global,
    held: &Held,
    rows: (&str, &str),
    of_log: bool,
) -> Result<(), Fail> {
    let (whole, _) = undisturbed(rt, alloc, held, rows.1)?;
    for calls in 0..MOST {
        if stop_once(rt, alloc, held, stop_at(of_log, calls), rows, &whole)? {
            return Ok(());
        }
    }
    Err(Fail::new("a run without a stop"))
}

// Stops the log, and then the database, at a row after the first ones; without those the files were
// never opened.
fn stop_both(rt: &impl Abort, alloc: Global, first: &str, last: &str) -> Result<(), Fail> {
    let mut held = nothing(alloc);
    for row in first.lines() {
        held = undisturbed(rt, alloc, &held, row)?.1;
    }
    stop_each(rt, alloc, &held, (last, last), true)?;
    stop_each(rt, alloc, &held, (last, last), false)
}

// The rows before each row, and the row.
const ROWS: [(&str, &str); 7] = [
    ("", "export"),
    (
        "account root who=alice&rank=0\nsubmit alice path=PC/8086&name=Intel Corporation",
        "approve a1/root num=1",
    ),
    ("export", "account k1/root who=bob&rank=2"),
    ("export", "submit k1/root path=PC/8086&name=Intel"),
    (
        "submit root path=PC/8086&name=Intel",
        "comment k1/root num=1&text=seen",
    ),
    (
        "account root who=bob&rank=2\nsubmit root path=PC/8086&name=Intel",
        "reject k1/bob num=1&reason=known",
    ),
    (
        "submit root path=PC/8086&name=Intel",
        "withdraw k1/root num=1",
    ),
];

// Of an opening, an approval, a rank, a submission, a comment, a rejection and a withdrawal.
#[test]
fn a_stop_of_a_row(rt: HostRuntime) -> Result<(), Fail> {
    for (first, last) in ROWS {
        stop_both(&rt, rt.alloc(), first, last)?;
    }
    Ok(())
}

// An import of fifty vendors, whole or in chunks.
fn stop_import(rt: &impl Abort, alloc: Global, start: &str) -> Result<(), Fail> {
    let mut row = owned(alloc, start)?;
    for vendor in 0..50u32 {
        row.push_str(format!(in alloc; "{vendor:04x}  a;")?.as_str())?;
    }
    stop_both(rt, alloc, "export", row.as_str())
}

#[test]
fn a_stop_of_an_import(rt: HostRuntime) -> Result<(), Fail> {
    stop_import(&rt, rt.alloc(), "import k1/root ")
}

#[test]
fn a_stop_of_an_import_by_pieces(rt: HostRuntime) -> Result<(), Fail> {
    stop_import(&rt, rt.alloc(), "slowly k1/root ")
}

fn older<S: Alter + Drop>(
    alloc: Global,
    conn: Connection<S>,
) -> Result<(Whole, Connection<S>), Fail> {
    let mut conn = conn;
    conn.execute_batch(OLDER)?;
    Ok((no_answer(alloc)?, conn))
}

/// What files of the database of schema 1 hold.
pub(crate) fn held_older(rt: &impl Abort, alloc: Global) -> Result<Held, Fail> {
    let files = laid(alloc, &nothing(alloc), ALL)?;
    let (made, files) = over_files(rt, alloc, files, Task::Older)?;
    match made {
        Some(_) => bytes_of(alloc, &files),
        None => Err(Fail::new("a connection")),
    }
}

#[test]
fn a_stop_of_a_migration(rt: HostRuntime) -> Result<(), Fail> {
    let held = held_older(&rt, rt.alloc())?;
    stop_each(&rt, rt.alloc(), &held, ("migrate", "changes 0"), true)?;
    stop_each(&rt, rt.alloc(), &held, ("migrate", "changes 0"), false)
}
